//! The next entry of each space.

ghost use Rattle.std.specs.Prelude.{◌≡◌, ◌≤◌, ◌<◌, ◌+◌, true, false, length};
ghost use Rattle.std.specs.List.{list_any};
ghost use Rattle.nob_model_traces.specs.Merged.{is_earlier};
ghost use Rattle.nob_recall.specs.Dues as words;

use crate::dated::Dated;
use nob_ids::SpaceId;
use nob_model_traces::Moment;

/// What is known of the entries of a space that weren't passed yet.
#[derive(Debug, Drop)]
pub struct Upcoming {
    /// The next one, if it was told.
    pub next: Option<Dated>,
    /// The stamp of the last one that was told: 0 before the first.
    pub last: u64,
    /// Whether there are no more.
    pub ended: bool,
}

/// Nothing was told of a space yet.
pub(crate) fn no_head() -> Upcoming
    ensures { result ≡ words.no_head }
{
    Upcoming {
        next: None,
        last: 0,
        ended: false,
    }
}

/// Whether a space has more entries, of which none was told.
pub(crate) fn is_wanted(head: &Upcoming) -> bool
    ensures { result ≡ words.is_wanted head.now }
{
    head.next.is_none() && !head.ended
}

// Whether the next entry of a space wasn't told yet, and may have this stamp or a lower one.
fn may_come(stamp: u64, head: &Upcoming) -> bool
    ensures { result ≡ words.may_come stamp head.now }
{
    is_wanted(head) && head.last < stamp
}

/// Whether the next entry of one of these spaces wasn't told yet, and may have this stamp or a lower
/// one. Linear in the spaces.
pub(crate) fn any_may_come(stamp: u64, heads: &[Upcoming]) -> bool
    ensures { result ≡ list_any (words.may_come stamp) heads.now }
{
    match heads {
        [] => false,
        [head, others @ ..] => may_come(stamp, head) || any_may_come(stamp, others),
    }
}

// When the next entry of a space was made.
fn moment_of(place: usize, head: &Upcoming) -> Option<Moment>
    requires { place < 32 }
    ensures { result ≡ words.moment_of (place + 1) head.now }
{
    let Some(dated) = &head.next else {
        return None;
    };
    let Some(space) = SpaceId::new(place as u16 + 1) else {
        unreachable!();
    };
    Some(Moment {
        stamp: dated.stamp,
        space,
    })
}

// Whether a moment is earlier than another, by what they are.
fn is_sooner(stamp: u64, space: SpaceId, other_stamp: u64, other_space: SpaceId) -> bool
    ensures { result ≡ is_earlier (record { stamp = stamp; space = space })
        (record { stamp = other_stamp; space = other_space }) }
{
    stamp < other_stamp || (stamp == other_stamp && space.get() < other_space.get())
}

// The earlier of two.
fn earlier_of(one: Option<Moment>, other: Option<Moment>) -> Option<Moment>
    ensures { result ≡ words.earlier_of one other }
{
    match one {
        Some(moment) => match other {
            Some(twin) => {
                if is_sooner(twin.stamp, twin.space, moment.stamp, moment.space) {
                    return Some(twin);
                }
                Some(moment)
            }
            None => Some(moment),
        },
        None => other,
    }
}

/// When the earliest of the next entries was made, of spaces that are counted from this place on.
/// Linear in the spaces.
pub(crate) fn earliest(place: usize, heads: &[Upcoming]) -> Option<Moment>
    requires { place + length heads.now ≤ 32 }
    ensures { result ≡ words.earliest (place + 1) heads.now }
{
    match heads {
        [] => None,
        [head, others @ ..] => {
            let rest = earliest(place + 1, others);
            earlier_of(moment_of(place, head), rest)
        }
    }
}

/// Whether an entry can be told of a space of which this is known.
pub(crate) fn can_tell(head: &Upcoming, dated: &Dated) -> bool
    ensures yes { result ≡ true → words.CanTell head.now dated.now }
    ensures no { result ≡ false → words.CanTell head.now dated.now → ⊥ }
{
    is_wanted(head) && head.last < dated.stamp
}

/// What is known of a space once an entry was told.
pub(crate) fn told(dated: Dated) -> Upcoming
    ensures { result ≡ words.told dated }
{
    let last = dated.stamp;
    Upcoming {
        next: Some(dated),
        last,
        ended: false,
    }
}
