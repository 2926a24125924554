//! Chunks of which a record sets the granted version: they may lack replicas from then on (section 4.3).

ghost use Rattle.std.specs.Prelude.{◌≡◌, Some, IfSome};
ghost use Rattle.master_plan.specs.Granted.{granted_chunk, with_granted};

use log_records::record::Record;
use rereplicate::doubts::doubt;
use rereplicate::whole::Doubted;

/// The chunk whose granted version a record sets, if it does, is doubted.
pub fn doubt_granted(until: Option<u64>, doubted: &mut Doubted, entry: &Record) -> Option<u64>
    ensures kept { IfSome result (λ moment. until ≡ Some moment) }
    ensures doubted { IfSome result (λ _. doubted.new ≡ with_granted doubted.old (granted_chunk entry.now)) }
{
    match granted_chunk(entry) {
        Some(handle) => doubt(until, doubted, handle),
        None => until,
    }
}

// No other record sets a granted version.
fn granted_chunk(entry: &Record) -> Option<u64>
    ensures { result ≡ granted_chunk entry.now }
{
    match entry {
        Record::Grant { handle, .. } | Record::ChunkItem { handle, .. } => Some(handle.0),
        _ => None,
    }
}
