//! Outstanding messages: the references that come in them, and what is lent by them.

ghost use Rattle.std.specs.Prelude.{◌≡◌, IfOk, map};
ghost use Rattle.std.specs.List.{list_any};
ghost use Rattle.nob_model_types.specs.Messages as words;
ghost use Rattle.nob_model_types.specs.Turns as turns_words;
ghost use Rattle.nob_model_work.specs.Work as work_words;
ghost use Rattle.nob_check_ledgers.specs.Making.{can_lend};

use nob_check_index::DeedIndex;
use nob_ids::WireRep;
use nob_model_types::List;
use nob_model_types::message::{Loan, Message, RefCopy};
use nob_model_work::{Outstanding, Run};
use std::alloc::{AllocError, Global};

// Whether a reference is lost.
fn is_lost(past: &DeedIndex, rep: &WireRep) -> bool
    ensures { result ≡ turns_words.is_lost past.now.here.space past.now.here.n rep.now
        past.now.deeds }
{
    let here = past.here();
    if rep.owner == here.space {
        return false;
    }
    if !here.is_peer(rep.owner) || past.is_closed(rep.owner) {
        return true;
    }
    past.turns(rep).is_refused()
}

// Whether one of these copies is of a lost reference.
fn is_any_lost(past: &DeedIndex, copies: &[RefCopy]) -> bool
    ensures { result ≡ list_any (λ copy.
        turns_words.is_lost past.now.here.space past.now.here.n copy.rep past.now.deeds)
        copies.now }
{
    match copies {
        [] => false,
        [copy, others @ ..] => is_lost(past, &copy.rep) || is_any_lost(past, others),
    }
}

/// Whether a message carries a lost reference.
pub fn is_lost_message(past: &DeedIndex, message: &Message) -> bool
    ensures { result ≡ words.is_lost_message past.now.here.space past.now.here.n past.now.deeds
        message.now }
{
    is_any_lost(past, message.copies.as_slice())
}

// A reference as it comes in a message.
#[tactic(auto, unfolding(nob_model_types::specs::Messages::new_copy))]
fn new_copy(past: &DeedIndex, rep: &WireRep) -> RefCopy
    ensures { result ≡ words.new_copy past.now.here.space past.now.here.n past.now.deeds rep.now }
{
    if is_lost(past, rep) {
        let loan = Loan::Never;
        return RefCopy { rep: *rep, loan };
    }
    let loan = Loan::Due;
    RefCopy { rep: *rep, loan }
}

// The copies of these references as they come.
fn new_copies(alloc: Global, past: &DeedIndex, reps: &[WireRep]) -> Result<Vec<RefCopy>, AllocError>
    ensures { IfOk result (λ copies. copies.items
        ≡ map (λ rep. words.new_copy past.now.here.space past.now.here.n past.now.deeds rep)
        reps.now) }
{
    let mut copies = Vec::new(alloc);
    for rep in reps {
        let copy = new_copy(past, rep);
        copies.push(copy)?;
    }
    Ok(copies)
}

/// A message that is acted on, with its references as they come.
pub fn new_message(alloc: Global, past: &DeedIndex, message: Message) -> Result<Message, AllocError>
    ensures { IfOk result (λ new. new ≡ words.new_message past.now.here.space past.now.here.n
        message.from message.number message.item past.now.deeds) }
{
    let Message {
        from,
        session: _,
        number,
        item,
        copies: _,
    } = message;
    let reps = nob_item::counted_refs(alloc, &item)?;
    let copies = List::from_vec(new_copies(alloc, past, reps.as_slice())?);
    Ok(Message {
        from,
        session: past.number(from),
        number,
        item,
        copies,
    })
}

/// Whether a loan of a reference can be made: it is own or usable.
pub fn is_lendable(past: &DeedIndex, rep: &WireRep) -> bool
    ensures { result ≡ can_lend past.now.here.space past.now.here.n past.now.deeds rep.now }
{
    if rep.owner == past.here().space {
        return true;
    }
    past.turns(rep).is_granted() && !past.is_closed(rep.owner)
}

// A copy with its loan made, if it can be made now.
#[tactic(auto, unfolding(nob_model_types::specs::Messages::copy_after))]
fn copy_after(past: &DeedIndex, copy: &RefCopy) -> RefCopy
    ensures { result ≡ words.copy_after past.now.here.space past.now.here.n past.now.deeds
        copy.now }
{
    let rep = copy.rep;
    match copy.loan {
        Loan::Due => {
            if is_lendable(past, &rep) {
                let loan = Loan::Lent;
                return RefCopy { rep, loan };
            }
            let loan = Loan::Due;
            RefCopy { rep, loan }
        }
        Loan::Lent => {
            let loan = Loan::Lent;
            RefCopy { rep, loan }
        }
        Loan::Never => {
            let loan = Loan::Never;
            RefCopy { rep, loan }
        }
    }
}

// Makes the loans of a message that can be made now.
#[tactic(auto, unfolding(nob_model_types::specs::Messages::message_after))]
fn lend_message(past: &DeedIndex, message: &mut Message)
    ensures { message.new ≡ words.message_after past.now.here.space past.now.here.n past.now.deeds
        message.old }
{
    for place in 0..message.copies.as_slice().len() {
        let copy = copy_after(past, &message.copies.as_slice()[place]);
        message.copies.set(place, copy);
    }
}

// Makes the loans of a job that runs that can be made now.
#[tactic(auto, unfolding(nob_model_work::specs::Work::run_after))]
fn lend_run(past: &DeedIndex, run: &mut Run)
    ensures { run.new ≡ work_words.run_after past.now.here.space past.now.here.n past.now.deeds
        run.old }
{
    lend_message(past, &mut run.message);
}

/// A message with the loans made that can be made now. It takes no memory.
pub fn message_after(past: &DeedIndex, mut message: Message) -> Message
    ensures { result ≡ words.message_after past.now.here.space past.now.here.n past.now.deeds
        message }
{
    lend_message(past, &mut message);
    message
}

// Messages with the loans made that can be made now.
fn message_loans(past: &DeedIndex, messages: List<Message>) -> List<Message>
    ensures { result ≡ map (λ message. words.message_after past.now.here.space past.now.here.n
        past.now.deeds message) messages }
{
    let mut messages = messages.into_vec();
    for message in messages.iter_mut() {
        lend_message(past, message);
    }
    List::from_vec(messages)
}

// Jobs that run with the loans made that can be made now.
fn run_loans(past: &DeedIndex, runs: List<Run>) -> List<Run>
    ensures { result ≡ map (λ run. work_words.run_after past.now.here.space past.now.here.n
        past.now.deeds run) runs }
{
    let mut runs = runs.into_vec();
    for run in runs.iter_mut() {
        lend_run(past, run);
    }
    List::from_vec(runs)
}

/// What is outstanding with the loans made that can be made now. It takes no memory. It passes the
/// outstanding messages, and looks up the references whose loans are due.
#[tactic(auto, unfolding(nob_model_work::specs::Work::with_loans))]
pub fn with_loans(past: &DeedIndex, work: Outstanding) -> Outstanding
    ensures { result ≡ work_words.with_loans past.now.here.space past.now.here.n past.now.deeds
        work }
{
    let Outstanding {
        waiting,
        ready,
        running,
        replies,
        calls,
    } = work;
    Outstanding {
        waiting: message_loans(past, waiting),
        ready: message_loans(past, ready),
        running: run_loans(past, running),
        replies: message_loans(past, replies),
        calls,
    }
}
