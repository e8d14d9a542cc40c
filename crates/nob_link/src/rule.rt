//! The rule of a link, under which its channel stands: two kinds of step, a put and a take.

ghost use Rattle.std.specs.Prelude.{◌≡◌};

use crate::parcel::Parcel;
use crossbeam_channel::protocol::{Join, Lesson, Outcome, Protocol, Split};
use std::collections::LinkedList;

/// What a pass may do, and what it has put and taken, the first first. No value of it is made.
pub struct Known {
    /// Whether it may put.
    pub puts: bool,
    /// Whether it may take.
    pub takes: bool,
    /// What it has put.
    pub put: LinkedList<Parcel>,
    /// What it has taken.
    pub taken: LinkedList<Parcel>,
}

/// The rule: what was put is what was taken, and then what the link holds.
pub struct InOrder;

impl Protocol<Parcel, Known> for InOrder {
    ghost use Rattle.std.specs.Prelude.{true, []};
    ghost use Rattle.nob_link.specs.Rule.{known, IsInOrder};

    ghost holds = { IsInOrder };

    ghost first = { known true true [] [] };
}

/// The first pass is cut into one that puts and one that takes, and these are put together again.
pub struct Roles;

impl Split<Known> for Roles {
    ghost use Rattle.std.specs.Prelude.{true, false, []};
    ghost use Rattle.nob_link.specs.Rule.{known};

    ghost left = { λ v. known true false v.put [] };

    ghost right = { λ v. known false true [] v.taken };
}

impl Join<Known> for Roles {
    ghost use Rattle.std.specs.Prelude.{true, false, []};
    ghost use Rattle.nob_link.specs.Rule.{known};

    ghost both = { λ v w. known true true v.put w.taken };

    ghost spent = { known false false [] [] };
}

/// A put: the pass knows of one parcel more that it has put.
pub struct Put;

impl Outcome<Parcel, Known> for Put {
    ghost use Rattle.nob_link.specs.Rule.{after_put};

    ghost then = { λ v parcel w. w ≡ after_put v parcel };
}

impl Lesson<Parcel, Known> for Put {
    ghost use Rattle.std.specs.Prelude.{◌≤◌, length};

    ghost fact = { λ v queued. length queued ≤ length v.put };
}

/// A take: the pass knows of one parcel more that it has taken.
pub struct Take;

impl Outcome<Parcel, Known> for Take {
    ghost use Rattle.nob_link.specs.Rule.{after_take};

    ghost then = { λ v parcel w. w ≡ after_take v parcel };
}

impl Lesson<Parcel, Known> for Take {
    ghost use Rattle.std.specs.Prelude.{⊤};

    ghost fact = { λ v queued. ⊤ };
}

/// A take by the pass of both ends, which knows what is left.
pub struct Rest;

impl Outcome<Parcel, Known> for Rest {
    ghost use Rattle.std.specs.Prelude.{◌<◌, length};
    ghost use Rattle.nob_link.specs.Rule.{after_take};

    ghost then = { λ v parcel w. (w ≡ after_take v parcel) × (length v.taken < length v.put) };
}

impl Lesson<Parcel, Known> for Rest {
    ghost use Rattle.std.specs.Prelude.{◌≤◌, ◌++◌, length};

    ghost fact = { λ v queued. (v.put ≡ v.taken ++ queued) × (length queued ≤ 1024) };
}
