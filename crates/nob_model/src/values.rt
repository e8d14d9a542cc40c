//! Whether two values are the same.

ghost use Rattle.std.specs.Prelude.{◌≡◌, ◌↔◌, true};

use nob_model_types::same_value as same_tree;
use nob_pickle::Value;

/// Whether two values are the same. It recurses once for each level of them.
#[tactic(auto, using(crate::proofs::SameValues::value_same))]
pub fn same_value(value: &Value, other: &Value) -> bool
    ensures { (result ≡ true) ↔ (value.now ≡ other.now) }
{
    same_tree(value, other)
}
