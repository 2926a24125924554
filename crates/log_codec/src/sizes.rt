//! How many bytes a record or an item has.

ghost use Rattle.std.specs.Prelude.{◌≡◌, ◌<◌, ◌^◌, length, IsTrue};
ghost use Rattle.gfs_types.specs.Paths.{is_path};
ghost use Rattle.log_codec.specs.Payloads.{payload, IsWritable};
ghost use Rattle.log_codec.specs.Sizes.{payload_size, shape_size};

use gfs_types::lists::Text;
use gfs_types::shape::Shape;
use log_records::record::Record;

#[tactic(auto, using(crate::proofs::Lists::path_is_short))]
fn path_len(text: &Text) -> usize
    requires { IsTrue (is_path text.now) }
    ensures len { result ≡ length text.now }
    ensures short { length text.now < 2 ^ 16 }
{
    text.as_str().len()
}

fn shape_len(shape: Option<Shape>) -> usize
    ensures { result ≡ shape_size shape }
{
    match shape {
        None => 0,
        Some(_) => 5,
    }
}

fn payload_size(entry: &Record) -> usize
    requires { IsWritable entry.now }
    ensures { result ≡ payload_size entry.now }
{
    match entry {
        Record::Epoch { .. } | Record::Expired { .. } => 9,
        Record::Mkdir { path, .. } | Record::Rmdir { path, .. } => 19 + path_len(path),
        Record::Create { shape, path, .. } => 27 + shape_len(*shape) + path_len(path),
        Record::Delete { path, .. } => 27 + path_len(path),
        Record::Rename { from, to, .. } | Record::Snapshot { from, to, .. } => {
            21 + path_len(from) + path_len(to)
        }
        Record::Refused { .. } | Record::ClientItem { .. } => 18,
        Record::AddChunk { .. } | Record::Issue { .. } => 17,
        Record::Grant { members, .. } => 20 + 2 * members.len(),
        Record::CopyStart { .. } => 37,
        Record::Counters { .. } => 25,
        Record::DirItem { path } => 3 + path_len(path),
        Record::FileItem {
            path,
            shape,
            handles,
            ..
        } => 15 + shape_len(*shape) + path_len(path) + 8 * handles.len(),
        Record::ChunkItem { members, .. } => 28 + 2 * members.len(),
    }
}

/// How many bytes `encode` gives. Takes no memory.
pub fn encoded_len(entry: &Record) -> usize
    requires { IsWritable entry.now }
    ensures { result ≡ length (payload entry.now) }
{
    payload_size(entry)
}
