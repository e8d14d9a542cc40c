//! What stands beside each ready job.

ghost use Rattle.std.specs.Prelude.{◌≡◌, ℕ, ◌==◌, IsSome, Some, Option, if◌then◌else◌};
ghost use Rattle.nob_slots.specs.Slots.{item_at, is_marked};
ghost use Rattle.nob_space_messages.specs.InLine.{MarksFirst, before_at, behind_at, target_at, with_if};

use crate::lanes::Lane;
use nob_slots::Slots;

/// The target of a ready job, and the stamps of the ready jobs of that target that stand next before
/// and behind it.
#[derive(Clone, Copy, Debug, PartialEq, Eq)]
pub struct Link {
    pub target: u64,
    pub before: Option<u64>,
    pub behind: Option<u64>,
}

/// Writes what stands next behind a job, if there is one.
pub fn set_behind(links: &mut Slots<Link>, at: Option<u64>, behind: Option<u64>)
    requires { (stamp : ℕ) → at ≡ Some stamp → IsSome (item_at links.old.rows stamp) }
    ensures targets { (other : ℕ) → target_at links.new.rows other
        ≡ target_at links.old.rows other }
    ensures before { (other : ℕ) → before_at links.new.rows other
        ≡ before_at links.old.rows other }
    ensures behind { (other : ℕ) → behind_at links.new.rows other
        ≡ with_if (behind_at links.old.rows) at behind other }
    ensures marked { links.new.marked ≡ links.old.marked }
    ensures room { links.new.room ≡ links.old.room }
{
    let Some(stamp) = at else {
        return;
    };
    let Some(link) = links.get(stamp) else {
        return;
    };
    let Link { target, before, .. } = *link;
    let link = Link {
        target,
        before,
        behind,
    };
    let _old = links.set(stamp, link);
}

/// Writes what stands next before a job, if there is one.
pub fn set_before(links: &mut Slots<Link>, at: Option<u64>, before: Option<u64>)
    requires { (stamp : ℕ) → at ≡ Some stamp → IsSome (item_at links.old.rows stamp) }
    ensures targets { (other : ℕ) → target_at links.new.rows other
        ≡ target_at links.old.rows other }
    ensures before { (other : ℕ) → before_at links.new.rows other
        ≡ with_if (before_at links.old.rows) at before other }
    ensures behind { (other : ℕ) → behind_at links.new.rows other
        ≡ behind_at links.old.rows other }
    ensures marked { links.new.marked ≡ links.old.marked }
    ensures room { links.new.room ≡ links.old.room }
{
    let Some(stamp) = at else {
        return;
    };
    let Some(link) = links.get(stamp) else {
        return;
    };
    let Link { target, behind, .. } = *link;
    let link = Link {
        target,
        before,
        behind,
    };
    let _old = links.set(stamp, link);
}

/// Marks the first job of a lane, if there is one, where none of it runs, or takes its mark away.
pub fn mark_first(links: &mut Slots<Link>, lane: &Lane)
    requires { (stamp : ℕ) → lane.now.first ≡ Some stamp
        → IsSome (item_at links.old.rows stamp) }
    ensures rows { links.new.rows ≡ links.old.rows }
    ensures marks { MarksFirst links.old.marked links.new.marked lane.now }
    ensures room { links.new.room ≡ links.old.room }
{
    if let Some(stamp) = lane.first {
        links.mark(stamp, lane.runs == 0);
    }
}
