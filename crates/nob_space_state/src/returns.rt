//! What messages and jobs have lent is given back.

ghost use Rattle.std.specs.Prelude.{◌≡◌, ◌<◌, [], ◌∷◌, filter, flat_map, not};
ghost use Rattle.nob_model_types.specs.Messages.{is_not_from};
ghost use Rattle.nob_model_work.specs.Work.{is_run};
ghost use Rattle.nob_model_history.specs.Holds.{copies_lent, target_lent, loans_of, is_lent};
ghost use Rattle.nob_table.specs.Table.{standing};
ghost use Rattle.nob_space_state.specs.Returns.{HasLent, GivesBack, lent_from};

use nob_ids::{JobNo, SpaceId, WireRep};
use nob_item::Item;
use nob_model::{Loan, Message, RefCopy};
use nob_space_messages::Messages;
use nob_table::{ObjectTable, Part};

/// Gives back one loan of a reference. A look-up.
pub fn give_back(table: &mut ObjectTable, rep: WireRep)
    requires { 0 < (standing table.old rep).counts.lent }
    ensures { GivesBack table.old table.new (rep ∷ []) }
{
    match table.release(rep, Part::Lent) {
        Ok(()) => {}
        Err(_) => unreachable!(),
    }
}

// Whether a loan is made.
fn is_lent(loan: Loan) -> bool
    ensures { result ≡ is_lent loan }
{
    match loan {
        Loan::Lent => true,
        Loan::Due | Loan::Never => false,
    }
}

// Gives back what these copies have lent.
fn give_back_copies(table: &mut ObjectTable, copies: &[RefCopy])
    requires { HasLent table.old (copies_lent copies.now) }
    ensures { GivesBack table.old table.new (copies_lent copies.now) }
{
    for copy in copies {
        if is_lent(copy.loan) {
            give_back(table, copy.rep);
        }
    }
}

// Gives back the target that a Call has lent.
fn give_back_target(table: &mut ObjectTable, me: SpaceId, item: &Item)
    requires { HasLent table.old (target_lent me item.now) }
    ensures { GivesBack table.old table.new (target_lent me item.now) }
{
    let Item::Call { target, .. } = item else {
        return;
    };
    if *target == 0 {
        return;
    }
    give_back(
        table,
        WireRep {
            owner: me,
            index: *target,
        },
    );
}

/// Gives back what a message has lent: the target of a Call, and its copies. Linear in them.
pub fn give_back_message(table: &mut ObjectTable, me: SpaceId, message: &Message)
    requires { HasLent table.old (loans_of me message.now) }
    ensures { GivesBack table.old table.new (loans_of me message.now) }
{
    give_back_target(table, me, &message.item);
    give_back_copies(table, message.copies.as_slice());
}

// Gives back what the job of this number has lent, if it runs.
fn give_back_job(table: &mut ObjectTable, me: SpaceId, job: JobNo, messages: &Messages)
    requires { HasLent table.old (flat_map (λ run. loans_of me run.message)
        (filter (is_run job) messages.now.jobs.running)) }
    ensures { GivesBack table.old table.new
        (flat_map (λ run. loans_of me run.message) (filter (is_run job) messages.now.jobs.running)) }
{
    let Some(message) = messages.find_run(job) else {
        return;
    };
    give_back_message(table, me, message);
}

/// Ends the job of this number, if it runs: what it has lent is given back. Logarithmic in the jobs
/// that run, and linear in what it has lent.
pub fn end_job(table: &mut ObjectTable, messages: &mut Messages, me: SpaceId, job: JobNo)
    requires { HasLent table.old (flat_map (λ run. loans_of me run.message)
        (filter (is_run job) messages.old.jobs.running)) }
    ensures back { GivesBack table.old table.new
        (flat_map (λ run. loans_of me run.message) (filter (is_run job) messages.old.jobs.running)) }
    ensures ended { messages.new.jobs.running
        ≡ filter (λ run. not (is_run job run)) messages.old.jobs.running }
    ensures ready { messages.new.jobs.ready ≡ messages.old.jobs.ready }
    ensures waiting { messages.new.waiting ≡ messages.old.waiting }
{
    give_back_job(table, me, job, messages);
    messages.end(job);
}

// Gives back what the messages that wait from a space have lent.
fn give_back_waiting(table: &mut ObjectTable, me: SpaceId, peer: SpaceId, messages: &Messages)
    requires { HasLent table.old (lent_from me peer messages.now.waiting.items) }
    ensures { GivesBack table.old table.new (lent_from me peer messages.now.waiting.items) }
{
    for message in messages.waiting_from(peer) {
        give_back_message(table, me, message);
    }
}

// Gives back what the ready jobs of a space have lent.
fn give_back_ready(table: &mut ObjectTable, me: SpaceId, peer: SpaceId, messages: &Messages)
    requires { HasLent table.old (lent_from me peer messages.now.jobs.ready) }
    ensures { GivesBack table.old table.new (lent_from me peer messages.now.jobs.ready) }
{
    for message in messages.ready_from(peer) {
        give_back_message(table, me, message);
    }
}

/// Throws the messages that wait from a space away: what they have lent is given back. Linear in
/// them and what they have lent.
pub fn throw_waiting_away(
    table: &mut ObjectTable,
    messages: &mut Messages,
    me: SpaceId,
    peer: SpaceId,
)
    requires { HasLent table.old (lent_from me peer messages.old.waiting.items) }
    ensures back { GivesBack table.old table.new (lent_from me peer messages.old.waiting.items) }
    ensures left { messages.new.waiting.items
        ≡ filter (is_not_from peer) messages.old.waiting.items }
    ensures awaited { messages.new.waiting.awaited ≡ messages.old.waiting.awaited }
    ensures jobs { messages.new.jobs ≡ messages.old.jobs }
{
    give_back_waiting(table, me, peer, messages);
    messages.drop_waiting(peer);
}

/// Throws the ready jobs of a space away: what they have lent is given back. Linear in them and
/// what they have lent.
pub fn throw_ready_away(
    table: &mut ObjectTable,
    messages: &mut Messages,
    me: SpaceId,
    peer: SpaceId,
)
    requires { HasLent table.old (lent_from me peer messages.old.jobs.ready) }
    ensures back { GivesBack table.old table.new (lent_from me peer messages.old.jobs.ready) }
    ensures left { messages.new.jobs.ready ≡ filter (is_not_from peer) messages.old.jobs.ready }
    ensures running { messages.new.jobs.running ≡ messages.old.jobs.running }
    ensures waiting { messages.new.waiting ≡ messages.old.waiting }
{
    give_back_ready(table, me, peer, messages);
    messages.drop_ready(peer);
}
