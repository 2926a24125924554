//! A gate, and what stands behind it.

ghost use Rattle.std.specs.Prelude.{◌≡◌, ◌∷◌, true};
ghost use Rattle.oplog.specs.Entries.{is_open};

/// Whether an open gate comes first.
pub fn is_open(bytes: &[u8]) -> bool
    ensures { result ≡ is_open bytes.now }
{
    match bytes {
        [] => false,
        [gate, ..] => *gate == 1,
    }
}

/// What stands behind the open gate.
#[tactic(auto, using(crate::proofs::Gates::open_is_some))]
pub fn behind_gate(bytes: &[u8]) -> &[u8]
    requires { is_open bytes.now ≡ true }
    ensures { bytes.now ≡ 1 ∷ result.now }
{
    let (_, rest) = bytes.split_at(1);
    rest
}
