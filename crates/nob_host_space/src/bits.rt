//! Tests as the bits of a number.

ghost use Rattle.std.specs.Prelude.{◌≡◌, ◌≤◌, ℕ, Bool, Some, length, slice_get};
ghost use Rattle.std.specs.Int.{bit_at};
ghost use Rattle.nob_host_space.specs.Bits.{mask, bit_of};

// The number whose bits these tests are, the lowest first.
fn mask_of(tests: &[bool]) -> u32
    requires { length tests.now ≤ 32 }
    ensures { result ≡ mask tests.now }
{
    match tests {
        [] => 0,
        [test, rest @ ..] => {
            let high = mask_of(rest);
            if *test { 2 * high + 1 } else { 2 * high }
        }
    }
}

/// The number of which each bit says what a test says, from the lowest on.
#[tactic(auto, using(crate::proofs::Masks::mask_bit))]
pub fn bits_of(tests: &[bool; 32]) -> u32
    ensures { (place : ℕ) (test : Bool) → slice_get tests.now place ≡ Some test
        → bit_at result place ≡ bit_of test }
{
    mask_of(tests)
}
