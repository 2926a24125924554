//! Where things stand on the master's disk.

ghost use Rattle.std.specs.Prelude.{◌≡◌, ◌≤◌, ◌<◌, ◌+◌, ◌*◌};
ghost use Rattle.oplog.specs.Layout.{area_at, area_size};

/// An area's size on a disk of that many bytes.
pub fn area_size(disk: usize) -> usize
    requires { 16 ≤ disk }
    ensures size { result ≡ area_size disk }
    ensures room { 16 + 2 * result ≤ disk }
{
    (disk - 16) / 2 / 16 * 16
}

/// Where the first area (0) or the second one (1) begins.
pub fn area_at(disk: usize, which: usize) -> usize
    requires disk { 16 ≤ disk }
    requires which { which < 2 }
    ensures place { result ≡ area_at disk which }
    ensures room { result + area_size disk ≤ disk }
{
    16 + which * area_size(disk)
}
