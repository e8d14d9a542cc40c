//! The spaces of a world that is followed.

ghost use Rattle.std.specs.Prelude.{◌≡◌, ◌≤◌, ℕ, List, [], length, IfOk};
ghost use Rattle.nob_ids.specs.declared.limits.Limits.{Limits as LimitsOf};
ghost use Rattle.nob_model_types.specs.declared.entry.Entry.{Entry as EntryOf};
ghost use Rattle.nob_watch.specs.Members as words;

use crate::asking::answers;
use nob_ids::{Limits, SpaceId};
use nob_model_types::Entry;
use nob_space::Space;
use std::alloc::{AllocError, Global};

/// Whether the space of an entry answers its event so: that space changes, and no other. Only memory
/// fails it, and then the space is as it was.
pub(crate) fn is_answered(spaces: &mut Vec<Space>, entry: &Entry) -> Result<bool, AllocError>
    requires here { entry.now.space ≤ length spaces.old.items }
    ensures each { length spaces.new.items ≡ length spaces.old.items }
    ensures asked { (n : ℕ) (list : List LimitsOf) (J : List EntryOf)
        → words.AreMembers n list J spaces.old.items
        → words.IsAsked n list J spaces.new.items entry.now result }
{
    let at = entry.space.place();
    answers(&mut spaces[at], &entry.event, &entry.result)
}

/// The spaces from 1 to n, each with its limits, which did nothing.
pub(crate) fn open_all(alloc: Global, n: u16, limits: &[Limits]) -> Result<Vec<Space>, AllocError>
    requires few { n ≤ 32 }
    requires each { length limits.now ≡ n }
    ensures { IfOk result (λ spaces. words.AreMembers n limits.now [] spaces.items) }
{
    let mut spaces: Vec<Space> = Vec::new(alloc);
    let mut p = 1;
    while p <= n {
        let Some(id) = SpaceId::new(p) else {
            unreachable!();
        };
        let own = limits[id.place()];
        let space = match Space::new(alloc, id, n, own) {
            Ok(space) => space,
            Err(error) => {
                shut_all(spaces);
                return Err(error);
            }
        };
        match spaces.push(space) {
            Ok(()) => {}
            Err(failed) => {
                failed.value.shut();
                shut_all(spaces);
                return Err(AllocError);
            }
        }
        p += 1;
    }
    Ok(spaces)
}

/// Ends spaces.
pub(crate) fn shut_all(mut spaces: Vec<Space>) {
    while let Some(space) = spaces.pop() {
        space.shut();
    }
    spaces.destroy_empty();
}
