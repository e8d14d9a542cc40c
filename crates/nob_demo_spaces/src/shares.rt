//! Who makes which call.

ghost use Rattle.std.specs.Prelude.{◌≡◌};
ghost use Rattle.nob_demo_spaces.specs.Shares as spec;

use crate::scene::Scene;

/// How many calls a space makes: all spaces but the first take turns.
#[tactic(auto, using(crate::proofs::Turns::shared, crate::proofs::Turns::none_below, crate::proofs::Turns::none_above))]
pub fn calls_of(scene: Scene, space: u16) -> u64
    ensures { result ≡ spec.calls_of scene.spaces space scene.calls }
{
    let spaces = scene.spaces() as u64;
    let space = space as u64;
    if space < 2 {
        return 0;
    }
    if spaces < space {
        return 0;
    }
    (scene.calls() as u64 + (spaces - space)) / (spaces - 1)
}
