//! What a call asks for past the part that it is at.

ghost use Rattle.std.specs.Prelude.{◌≡◌, suc, IfOk};
ghost use Rattle.relaxed_file.specs.Parts.{has_part};
ghost use Rattle.protocol.specs.ClientAttempts.{is_append, has_next_part, begins_next_part};
ghost use Rattle.protocol.specs.Client.{client_begins};
ghost use Rattle.client.specs.Doing.{doing};

use crate::client::Client;
use client_calls::effects::ClientEffects;
use client_calls::parts::has_part;
use client_calls::sums::sum;
use client_state::call::CurrentCall;
use gfs_types::call::Call;
use gfs_types::no_memory::NoMemory;

pub fn is_append(call: &Call) -> bool
    ensures { result ≡ is_append call.now }
{
    matches!(call, Call::Append(_, _))
}

fn has_later_part(chunk: u64, offset: u64, count: u64, index: u64) -> Result<bool, NoMemory>
    ensures { IfOk result (λ b. b ≡ has_part chunk offset count (suc index)) }
{
    sum(offset, count)?;
    let next = sum(index, 1)?;
    Ok(has_part(chunk, offset, count, next))
}

/// Whether the call has one more part after this one.
pub fn has_next_part(chunk: u64, index: u64, call: &Call) -> Result<bool, NoMemory>
    ensures { IfOk result (λ b. b ≡ has_next_part chunk index call.now) }
{
    match call {
        Call::Write(_, offset, bytes) => has_later_part(chunk, *offset, bytes.len() as u64, index),
        Call::Read(_, offset, count) => has_later_part(chunk, *offset, *count, index),
        _ => Ok(false),
    }
}

/// The next part begins, with all its attempts.
pub fn begins_next_part(
    client: &mut Client,
    mut current: CurrentCall,
) -> Result<ClientEffects, NoMemory>
    ensures { IfOk result (λ e. begins_next_part (client_begins client.old) current ≡ doing client.new e) }
{
    current.index = sum(current.index, 1)?;
    current.left = client.config().attempts;
    current.lost_lease = false;
    client.attempts(current)
}
