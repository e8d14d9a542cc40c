//! The rule of a lane, under which its channel stands: two kinds of step, a giving and a getting.

use crossbeam_channel::protocol::{Join, Lesson, Outcome, Protocol, Split};
use std::collections::LinkedList;

/// What an end knows. No value of it is made.
pub struct Knowledge<T> {
    /// How many parts it has of the right to know the whole.
    pub parts: u128,
    /// The errands that it gave.
    pub given: LinkedList<T>,
    /// The errands that it got.
    pub got: LinkedList<T>,
}

/// The rule: each errand that was given was got or is queued, as often.
pub struct Fair;

impl<T> Protocol<T, Knowledge<T>> for Fair {
    ghost use Rattle.std.specs.Prelude.{[]};
    ghost use Rattle.nob_dispatch_lanes.specs.Balance.{IsBalanced, knowing, all_parts};

    ghost holds = { λ queued views. IsBalanced queued views };

    ghost first = { knowing all_parts [] [] };
}

/// One part for a new end.
pub struct Cut;

impl<T> Split<Knowledge<T>> for Cut {
    ghost use Rattle.std.specs.Prelude.{◌-◌, []};
    ghost use Rattle.nob_dispatch_lanes.specs.Balance.{knowing};

    ghost left = { λ v. knowing (v.parts - 1) v.given v.got };

    ghost right = { λ v. knowing 1 [] [] };
}

impl<T> Join<Knowledge<T>> for Cut {
    ghost use Rattle.std.specs.Prelude.{◌+◌, ◌++◌, []};
    ghost use Rattle.nob_dispatch_lanes.specs.Balance.{knowing};

    ghost both = { λ v w. knowing (v.parts + w.parts) (v.given ++ w.given) (v.got ++ w.got) };

    ghost spent = { knowing 0 [] [] };
}

/// An errand is given.
pub struct Give;

impl<T> Outcome<T, Knowledge<T>> for Give {
    ghost use Rattle.std.specs.Prelude.{◌≡◌, ◌++◌, ◌∷◌, []};
    ghost use Rattle.nob_dispatch_lanes.specs.Balance.{knowing};

    ghost then = { λ v errand w. w ≡ knowing v.parts (v.given ++ errand ∷ []) v.got };
}

impl<T> Lesson<T, Knowledge<T>> for Give {
    ghost use Rattle.std.specs.Prelude.{⊤};

    ghost fact = { λ v queued. ⊤ };
}

/// An errand is got.
pub struct Get;

impl<T> Outcome<T, Knowledge<T>> for Get {
    ghost use Rattle.std.specs.Prelude.{◌≡◌, ◌++◌, ◌∷◌, []};
    ghost use Rattle.nob_dispatch_lanes.specs.Balance.{knowing};

    ghost then = { λ v errand w. w ≡ knowing v.parts v.given (v.got ++ errand ∷ []) };
}

impl<T> Lesson<T, Knowledge<T>> for Get {
    ghost use Rattle.std.specs.Prelude.{⊤};

    ghost fact = { λ v queued. ⊤ };
}

/// An errand is got by the end with all parts, which knows what is left.
pub struct Rest;

impl<T> Outcome<T, Knowledge<T>> for Rest {
    ghost use Rattle.std.specs.Prelude.{◌≡◌, ◌<◌, ◌++◌, ◌∷◌, []};
    ghost use Rattle.nob_dispatch_lanes.specs.Balance.{knowing, count};

    ghost then = { λ v errand w. (w ≡ knowing v.parts v.given (v.got ++ errand ∷ []))
        × (count v.got < count v.given) };
}

impl<T> Lesson<T, Knowledge<T>> for Rest {
    ghost use Rattle.std.specs.Prelude.{◌≡◌, ◌+◌, ◌≤◌, ℕ, length};
    ghost use Rattle.nob_dispatch_lanes.specs.Balance.{weigh};

    ghost fact = { λ v queued. ((weight : T → ℕ) → weigh weight v.given ≡ weigh weight v.got + weigh weight queued) × (length queued ≤ 1024) };
}
