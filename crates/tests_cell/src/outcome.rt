//! A small cell.

use gfs_types::config::Config;
use script::options::Options;

/// Three chunkservers and two clients, and chunks of 64 bytes in blocks of 16.
pub(crate) fn small_cell() -> Options {
    Options {
        servers: 3,
        clients: 2,
        config: Config {
            chunk: 64,
            block: 16,
            ..Config::default()
        },
    }
}
