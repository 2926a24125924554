//! The order of a checkpoint's items.

ghost use Rattle.std.specs.Prelude.{◌≡◌};
ghost use Rattle.oplog.specs.Order.{comes_before, comes_before_next, comes_next, is_checkpoint, is_in_order, number_of, path_of, rank};

use log_codec::is_item;
use log_records::record::Record;

fn rank(item: &Record) -> u8
    ensures { result ≡ rank item.now }
{
    match item {
        Record::Counters { .. } => 0,
        Record::DirItem { .. } | Record::FileItem { .. } => 1,
        Record::ChunkItem { .. } => 2,
        _ => 3,
    }
}

fn path_of(item: &Record) -> &str
    ensures { result.now ≡ path_of item.now }
{
    match item {
        Record::DirItem { path } | Record::FileItem { path, .. } => path.as_str(),
        _ => "",
    }
}

fn number_of(item: &Record) -> u64
    ensures { result ≡ number_of item.now }
{
    match item {
        Record::ChunkItem { handle, .. } => handle.0,
        Record::ClientItem { client, .. } => client.0,
        _ => 0,
    }
}

fn comes_before(a: &Record, b: &Record) -> bool
    ensures { result ≡ comes_before a.now b.now }
{
    let (first, second) = (rank(a), rank(b));
    first < second || (first == second && (path_of(a) < path_of(b) || number_of(a) < number_of(b)))
}

fn comes_before_next(a: &Record, rest: &[Record]) -> bool
    ensures { result ≡ comes_before_next a.now rest.now }
{
    match rest {
        [] => true,
        [b, ..] => comes_before(a, b),
    }
}

fn is_in_order(items: &[Record]) -> bool
    ensures { result ≡ is_in_order items.now }
{
    let mut rest = items;
    while let [first, others @ ..] = rest {
        if !is_item(first) || !comes_before_next(first, others) {
            return false;
        }
        rest = others;
    }
    true
}

/// Whether an item may come behind the last one, or first where there is none.
pub fn comes_next(last: &Option<Record>, item: &Record) -> bool
    ensures { result ≡ comes_next last.now item.now }
{
    match last {
        Some(before) => is_item(item) && comes_before(before, item),
        None => is_item(item) && rank(item) == 0,
    }
}

/// Whether these are the items of a checkpoint in their order: none, or the counters, names by path bytes, chunks by handle, clients.
pub fn is_checkpoint(items: &[Record]) -> bool
    ensures { result ≡ is_checkpoint items.now }
{
    match items {
        [] => true,
        [first, ..] => rank(first) == 0 && is_in_order(items),
    }
}
