//! A path with a NUL in it.

use crate::outcome::small_cell;
use shell::run::run_script;

const SCRIPT: &str = "c1 mkdir /a\0b\nc1 rename /f /\0\nc1 list /\n";

const PRINTED: &str = "c1 refused 1 BadPath\nc1 refused 1 BadPath\nc1 names 1 .gone/\n";

#[test]
fn a_path_with_a_nul_is_refused(rt: HostRuntime) {
    let mut reader = SCRIPT.as_bytes();
    let mut printed = Vec::new(rt.alloc());
    let result = run_script(rt.alloc(), &small_cell(), &mut reader, &mut printed);
    assert!(rt; result == Ok(()) && printed.as_slice() == PRINTED.as_bytes());
}
