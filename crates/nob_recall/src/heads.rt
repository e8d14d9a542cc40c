//! The next entries of all spaces.

ghost use Rattle.std.specs.Prelude.{◌≡◌, ◌≤◌, replicate, None, IfOk, IfErr, IfSome, OnOk, OnErr, MatchOption};
ghost use Rattle.nob_recall.specs.declared.dated.Dated.{Dated as DatedOf};
ghost use Rattle.nob_recall.specs.Dues as words;

use crate::dated::Dated;
use crate::head::{Upcoming, any_may_come, can_tell, earliest, is_wanted, no_head, told};
use nob_ids::SpaceId;
use std::alloc::{AllocError, Global};
use std::marker::Model;

/// The next entry of each space, as far as it was told. Contracts see the list: what is known of
/// space p stands at place p - 1. There are 32 spaces at most.
#[derive(Debug, Drop)]
pub struct Heads {
    heads: Vec<Upcoming>,
}

impl Model for Heads {
    ghost use Rattle.std.specs.Prelude.{List};
    ghost use Rattle.nob_recall.specs.declared.head.Upcoming.{Upcoming};
    ghost use Rattle.nob_recall.specs.Dues.{AreOfSpaces};

    ghost Value = { List Upcoming };

    ghost use Rattle.std.specs.Coded.{codes};
    ghost use Rattle.nob_pickle.specs.Marks.{trees_code};

    ghost coded = { Prim.hlevel (codes, trees_code) };

    ghost view = { λ heads. heads.heads.items };

    ghost invariant = { λ heads. AreOfSpaces heads.heads.items };
}

impl Heads {
    /// Nothing was told yet of so many spaces. Only memory fails it. The caller's condition: there are
    /// 32 at most.
    pub fn new(alloc: Global, count: usize) -> Result<Heads, AllocError>
        requires { count ≤ 32 }
        ensures { IfOk result (λ heads. heads ≡ replicate count words.no_head) }
    {
        let mut heads: Vec<Upcoming> = Vec::new(alloc);
        for _ in 0..count {
            heads.push(no_head())?;
        }
        Ok(Heads { heads })
    }

    /// Whether a space has more entries, of which none was told. Constant time.
    pub fn wants(&self, space: SpaceId) -> bool
        ensures { result ≡ words.wants space self.now }
    {
        match self.heads.get(space.place()) {
            Some(head) => is_wanted(head),
            None => false,
        }
    }

    /// The entry that is due: the earliest of the next ones, where no space may have one as early of
    /// which nothing was told. Linear in the spaces.
    pub fn due(&self) -> Option<&Dated>
        ensures due { MatchOption result ((dated : DatedOf) → words.IsDue self.now dated → ⊥)
            (λ dated. words.IsDue self.now dated.now) }
        ensures spaces { words.AreOfSpaces self.now }
    {
        due_of(self.heads.as_slice())
    }

    /// Tells the next entry of its space. It is handed back where there is no such space, where the
    /// space's next one was told already or there are no more, and where its stamp isn't above the
    /// last one. It takes no memory.
    pub fn tell(&mut self, dated: Dated) -> Result<(), Dated>
        ensures ok { OnOk result (words.IsTold self.old self.new dated) }
        ensures back { IfErr result (λ back. back ≡ dated) }
        ensures err { OnErr result (self.new ≡ self.old) }
        ensures only { OnErr result (words.CannotTell self.old dated) }
    {
        put_told(&mut self.heads, dated)
    }

    /// Says that there are no more entries of a space.
    pub fn end(&mut self, space: SpaceId)
        ensures { self.new ≡ words.with_end space self.old }
    {
        put_end(&mut self.heads, space);
    }

    /// The next entry of a space isn't the next one any more: it was passed.
    pub fn pass(&mut self, space: SpaceId)
        ensures { self.new ≡ words.with_passed space self.old }
    {
        put_passed(&mut self.heads, space);
    }
}

// The entry that is due.
fn due_of(heads: &[Upcoming]) -> Option<&Dated>
    requires { words.AreOfSpaces heads.now }
    ensures { MatchOption result ((dated : DatedOf) → words.IsDue heads.now dated → ⊥)
        (λ dated. words.IsDue heads.now dated.now) }
{
    let Some(moment) = earliest(0, heads) else {
        return None;
    };
    if any_may_come(moment.stamp, heads) {
        return None;
    }
    match &heads[moment.space.place()].next {
        Some(dated) => Some(dated),
        None => None,
    }
}

// The place at which an entry can be told.
fn place_for(heads: &[Upcoming], dated: &Dated) -> Option<usize>
    ensures some { IfSome result (λ at. words.CanTellAt heads.now at dated.now) }
    ensures none { result ≡ None → words.CannotTell heads.now dated.now }
{
    let at = dated.entry.space.place();
    match heads.get(at) {
        Some(head) => {
            if can_tell(head, dated) {
                return Some(at);
            }
            None
        }
        None => None,
    }
}

// The next entry of its space is told, where it can be.
fn put_told(heads: &mut Vec<Upcoming>, dated: Dated) -> Result<(), Dated>
    ensures ok { OnOk result (words.IsTold heads.old.items heads.new.items dated) }
    ensures back { IfErr result (λ back. back ≡ dated) }
    ensures err { OnErr result (heads.new.items ≡ heads.old.items) }
    ensures only { OnErr result (words.CannotTell heads.old.items dated) }
{
    match place_for(heads.as_slice(), &dated) {
        Some(at) => {
            heads[at] = told(dated);
            Ok(())
        }
        None => Err(dated),
    }
}

// There are no more entries of a space.
fn put_end(heads: &mut Vec<Upcoming>, space: SpaceId)
    ensures { heads.new.items ≡ words.with_end space heads.old.items }
{
    let at = space.place();
    if at < heads.len() {
        heads[at].ended = true;
    }
}

// The next entry of a space was passed.
fn put_passed(heads: &mut Vec<Upcoming>, space: SpaceId)
    ensures { heads.new.items ≡ words.with_passed space heads.old.items }
{
    let at = space.place();
    if at < heads.len() {
        heads[at].next = None;
    }
}
