//! References that were lent come into the hand.

ghost use Rattle.std.specs.Prelude.{◌≡◌, ◌≤◌, ℕ, length};
ghost use Rattle.nob_ids.specs.declared.wire_rep.WireRep.{WireRep as Rep};
ghost use Rattle.nob_model_history.specs.declared.history.History.{History};
ghost use Rattle.nob_model_history.specs.Holds.{times as times_word};
ghost use Rattle.nob_space_state.specs.Shows.{TableShows};
ghost use Rattle.nob_space_state.specs.TakingOver.{reps_of, CanTake, with_more, with_fewer};

use nob_ids::WireRep;
use nob_model::RefCopy;
use nob_table::{ObjectTable, Part};

/// How often a reference stands among copies.
pub fn times(rep: &WireRep, copies: &[RefCopy]) -> usize
    ensures times { result ≡ times_word rep.now (reps_of copies.now) }
    ensures bound { result ≤ length copies.now }
{
    match copies {
        [] => 0,
        [copy, others @ ..] => {
            let more = times(rep, others);
            if copy.rep == *rep { more + 1 } else { more }
        }
    }
}

/// The references of copies, which are lent, come into the hand.
pub fn take_over(table: &mut ObjectTable, copies: &[RefCopy])
    requires { CanTake table.old (reps_of copies.now) }
    ensures { (s n : ℕ) (h : History) (H L : Rep → ℕ) → TableShows s n table.old h H L
        → TableShows s n table.new h (with_more (reps_of copies.now) H)
        (with_fewer (reps_of copies.now) L) }
{
    match copies {
        [] => {}
        [copy, others @ ..] => {
            match table.hold(copy.rep, Part::Hand) {
                Ok(()) => {}
                Err(_) => unreachable!(),
            }
            match table.release(copy.rep, Part::Lent) {
                Ok(()) => {}
                Err(_) => unreachable!(),
            }
            take_over(table, others);
        }
    }
}
