//! Laws of what the clients of a running cell saw. They read nothing and answer nothing.

pub use cell_seats::journal::{agree, meet};
