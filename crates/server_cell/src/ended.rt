//! How a step ends.

ghost use Rattle.std.specs.Prelude.{◌≡◌, ◌<◌, []};
ghost use Rattle.protocol.specs.Causes.{IsDownFor};
ghost use Rattle.protocol.specs.declared.down_cause.DownCause.TheVariants as causes;
ghost use Rattle.server_cell.specs.Ends.{Ends};
ghost use Rattle.server_cell.specs.Settings.{KeepsSettings};
ghost use Rattle.server_handlers.specs.Doing.{doing};

use crate::numberings::numberings;
use messages::event::StepOut;
use protocol::down_cause::DownCause;
use protocol::step_outcome::Outcome;
use replica_store::store::ReplicaStore;
use server_handlers::effects::ServerEffects;
use server_handlers::server::Server;

// Why it goes down, where its disk had failed so often before.
pub(crate) fn cause_since<S: ReplicaStore>(server: &Server<S>, before: u64) -> DownCause
    ensures device { result ≡ causes.Device → before < server.now.failed }
    ensures room { result ≡ causes.NoRoom → ⊥ }
{
    if server.failures() > before {
        DownCause::Device
    } else {
        DownCause::Memory
    }
}

// The changes of the disk are made, and then the messages are sent. Where a change fails, the server stops. Before the step its disk had
// failed so often.
pub(crate) fn ends<S: ReplicaStore>(
    server: &mut Server<S>,
    effects: ServerEffects,
    before: u64,
) -> Outcome
    requires { server.old.state.under_way ≡ [] }
    ensures ends { Ends server.old.state (doing server.old.state effects) result.out result.seen server.new.state }
    ensures settings { KeepsSettings server.old.state server.new.state }
    ensures cause { IsDownFor result.out.down result.cause before server.new.failed }
{
    let alloc = server.alloc();
    let ServerEffects {
        sent,
        changes,
        seen,
    } = effects;
    match server.commit(changes) {
        Ok(()) => {
            let out = StepOut {
                sent,
                answer: None,
                down: false,
            };
            Outcome {
                out,
                seen,
                cause: None,
            }
        }
        Err(_) => {
            server.stop();
            Outcome::down(alloc, cause_since(server, before), numberings(seen))
        }
    }
}
