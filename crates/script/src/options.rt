//! What a run is given beside its script.

ghost use Rattle.std.specs.Prelude.{◌≡◌};
ghost use Rattle.gfs_types.specs.Settings.{default_settings};

use gfs_types::config::Config;

/// What a run is given beside its script. That these values are in their ranges is looked at when the cell is made.
#[derive(Clone, Copy, Debug, PartialEq, Eq)]
pub struct Options {
    pub servers: u64,
    pub clients: u64,
    pub config: Config,
}

impl Default for Options {
    ghost is_default = { λ o. o ≡ record { servers = 3; clients = 1; config = default_settings } };

    /// Three servers and one client, and the settings' defaults.
    fn default() -> Options {
        Options {
            servers: 3,
            clients: 1,
            config: Config::default(),
        }
    }
}
