//! Spaces for a while. A space holds pins, which nobody may drop: it is ended by `shut`.

ghost use Rattle.std.specs.Prelude.{◌≡◌, ◌≤◌, IfOk, []};
ghost use Rattle.nob_space.specs.Spaces.{StandsFor};

use nob_ids::{Limits, SpaceId};
use nob_space::{Space, SpaceError};
use std::alloc::{AllocError, Global};

// A new space of this number among three.
fn open(alloc: Global, limits: Limits, number: u16) -> Result<Space, AllocError>
    requires some { 1 ≤ number }
    requires few { number ≤ 3 }
    ensures id { IfOk result (λ space. space.id ≡ number) }
    ensures n { IfOk result (λ space. space.n ≡ 3) }
    ensures limits { IfOk result (λ space. space.limits ≡ limits) }
    ensures stands { IfOk result (λ space. StandsFor space []) }
{
    let Some(id) = SpaceId::new(number) else {
        unreachable!();
    };
    Space::new(alloc, id, 3, limits)
}

/// Makes the spaces 1, 2 and 3, hands them to a function, and ends them, whatever that answers.
/// Where memory is wanted for them it isn't called.
pub fn with_three<T, F: FnMut(&mut Space, &mut Space, &mut Space) -> Result<T, SpaceError>>(
    alloc: Global,
    limits: Limits,
    mut play: F,
) -> Result<T, SpaceError>
    requires { F.IsAlwaysCallable play }
{
    let mut one = open(alloc, limits, 1)?;
    let played = with_two(alloc, limits, &mut one, &mut play);
    one.shut();
    played
}

// The same beside the first.
fn with_two<T, F: FnMut(&mut Space, &mut Space, &mut Space) -> Result<T, SpaceError>>(
    alloc: Global,
    limits: Limits,
    one: &mut Space,
    play: &mut F,
) -> Result<T, SpaceError>
    requires { F.IsAlwaysCallable play.old }
{
    let mut two = open(alloc, limits, 2)?;
    let played = with_one(alloc, limits, one, &mut two, play);
    two.shut();
    played
}

// The same beside the first two.
fn with_one<T, F: FnMut(&mut Space, &mut Space, &mut Space) -> Result<T, SpaceError>>(
    alloc: Global,
    limits: Limits,
    one: &mut Space,
    two: &mut Space,
    play: &mut F,
) -> Result<T, SpaceError>
    requires { F.IsAlwaysCallable play.old }
{
    let mut three = open(alloc, limits, 3)?;
    let played = play(one, two, &mut three);
    three.shut();
    played
}
