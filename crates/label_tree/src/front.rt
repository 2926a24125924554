//! What a label and a path share.

ghost use Rattle.std.specs.Prelude.{◌≡◌, ◌≢◌, ◌≤◌, ◌++◌, List, ℕ, length, MatchOption};
ghost use Rattle.label_tree.specs.Fronts.{shared, first_byte};
ghost use Rattle.label_tree.specs.Turns.{IsTurn};

use crate::turn::Turn;

/// How many bytes both begin with.
pub fn shared_len(label: &[u8], path: &[u8]) -> usize
    ensures { result ≡ shared label.now path.now }
{
    let mut count = 0;
    while count < label.len() && count < path.len() && label[count] == path[count] {
        count += 1;
    }
    count
}

/// The first byte.
pub fn first_byte(bytes: &[u8]) -> u8
    requires { 1 ≤ length bytes.now }
    ensures { result ≡ first_byte bytes.now }
{
    bytes[0]
}

/// What a path has behind a label that it begins with.
pub fn rest_behind<'a>(label: &[u8], path: &'a [u8]) -> Option<&'a [u8]>
    ensures { MatchOption result ((rest : List ℕ) → path.now ≢ label.now ++ rest) (λ rest. path.now ≡ label.now ++ rest.now) }
{
    path.strip_prefix(label)
}

/// Where a path goes at a label.
pub fn turn(label: &[u8], path: &[u8]) -> Turn
    requires label { 1 ≤ length label.now }
    requires path { 1 ≤ length path.now }
    ensures { IsTurn label.now path.now result }
{
    let count = shared_len(label, path);
    if count == label.len() {
        return Turn::Through;
    }
    if count > 0 {
        return Turn::Cut(count);
    }
    if first_byte(path) < first_byte(label) {
        return Turn::Before;
    }
    Turn::After
}
