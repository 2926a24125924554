//! The bytes of the operation log's records and of a checkpoint's items.
#![tactic(auto)]

mod fault;
mod read_chunks;
mod read_fields;
mod read_items;
mod read_names;
mod reading;
mod sizes;
mod write_fields;
mod writing;

pub use fault::DecodeFault;
pub use reading::decode;
pub use sizes::encoded_len;
pub use writing::{encode, has_shape, is_item, is_writable, put_record};
