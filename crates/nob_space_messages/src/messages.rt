//! The messages of a space.

ghost use Rattle.std.specs.Prelude.{◌≡◌, ℕ, ◌+◌, ◌<◌, ◌≤◌, ◌^◌, ◌==◌, ◌&&◌, ◌||◌, [], ◌∷◌, ◌++◌, true, not, length, map, filter, find, option_copied, IsOk, IsSome, Some, MatchOption, OnOk};
ghost use Rattle.std.specs.List.{list_any};
ghost use Rattle.std.specs.Option.{option_map};
ghost use Rattle.nob_ids.specs.Names.{is_same};
ghost use Rattle.nob_ids.specs.declared.wire_rep.WireRep.{WireRep as WireRepOf};
ghost use Rattle.nob_model_types.specs.declared.message.Message.{Message as MessageOf};
ghost use Rattle.nob_model_types.specs.Messages.{is_not_from};
ghost use Rattle.nob_model_work.specs.Work.{is_run, without_first};
ghost use Rattle.nob_space_messages.specs.Jobs.{is_free_of, IsAbove};
ghost use Rattle.nob_space_messages.specs.Messages.{if_any};
ghost use Rattle.nob_space_messages.specs.Waiting.{carries_any_of, due_to_all, granted_message, is_awaited, is_due_in, is_settleable_in, IsNew};

use crate::copies::{count_all, has_copies, no_copies, uncount_all};
use crate::entry::{Entry, READY, RUNNING, WAITING};
use crate::from::From;
use crate::in_line::InLine;
use crate::lending::lend_line;
use crate::lines::Lines;
use crate::losing::{lower_all, lower_line};
use crate::ready::{self, Ready};
use crate::taking::drop_jobs;
use crate::waits::{Waits, drop_all, line_up};
use nob_ids::{JobNo, SpaceId, WireRep};
use nob_model_acting::candidates::target_of;
use nob_model_types::Message;
use nob_queues::Queues;
use nob_slots::Numbers;
use std::alloc::{AllocError, Global};
use std::marker::Model;

/// The messages of a space that were acted on and aren't over: those that wait for their
/// references, in order of acting; the ready jobs, in order of becoming ready; and the jobs that run,
/// the newest first. Contracts see the three lists, which of the references that messages wait for
/// are awaited, and for how many more of each there is room.
///
/// Each message stands in one slab from its Act to its end; three queues have the keys of those that
/// wait, are ready and run. Settle and Claim move a key from one to the next, and no message.
pub struct Messages {
    queues: Queues<Entry>,
    waits: Waits,
    ready: Ready,
}

// By hand, so that the messages are taken apart here alone and not at each end of each caller.
impl Drop for Messages {
    fn drop(self) {
        let Messages {
            queues: _,
            waits: _,
            ready: _,
        } = self;
    }
}

impl Model for Messages {
    ghost use Rattle.nob_space_messages.specs.Messages.{MessageLists};

    ghost Value = { MessageLists };

    ghost use Rattle.std.specs.Coded.{codes};
    ghost use Rattle.nob_pickle.specs.Marks.{trees_code};

    ghost coded = { Prim.hlevel (codes, trees_code) };

    ghost use Rattle.std.specs.Prelude.{◌<◌, min};
    ghost use Rattle.nob_queues.specs.Queues.{marked_at, room_at, rows_at};
    ghost use Rattle.nob_space_messages.specs.Copies.{AreCarried, AreFew};
    ghost use Rattle.nob_space_messages.specs.Lines.{AreWaiting, items_of, reps_in};
    ghost use Rattle.nob_space_messages.specs.Rows.{AreCounted, AreReady, newest_first};

    ghost view = { λ m. record {
      waiting = record {
        items = items_of (rows_at m.queues 0);
        awaited = reps_in m.waits.lines.owners;
        room = m.waits.room;
      };
      jobs = record {
        ready = items_of (rows_at m.queues 1);
        running = newest_first (rows_at m.queues 2);
        ready_room = min m.ready.room m.queues.room;
        settled_room = m.ready.room;
        running_room = room_at m.queues 2;
      };
    } };

    ghost invariant = { λ m. AreWaiting (rows_at m.queues 0) (marked_at m.queues 0) (room_at m.queues 0) m.waits.froms m.waits.lines m.waits.next m.waits.room
        × AreCarried m.waits.copies (items_of (rows_at m.queues 0)) × AreFew m.waits.copies m.waits.next
        × (0 < m.waits.room → 0 < m.queues.room)
        × AreReady (rows_at m.queues 1) (room_at m.queues 1) m.ready.lines.links m.ready.lines.lanes m.ready.froms m.ready.next m.ready.room
        × AreCounted m.ready.lines.lanes (newest_first (rows_at m.queues 2)) };
}

// The most stamps and copies that there can be of those that wait.
const MOST: u64 = 1 << 61;

impl Messages {
    /// No messages. It takes no memory before the first.
    pub fn new(alloc: Global) -> Messages
        ensures items { result.waiting.items ≡ [] }
        ensures awaited { result.waiting.awaited ≡ [] }
        ensures ready { result.jobs.ready ≡ [] }
        ensures running { result.jobs.running ≡ [] }
    {
        Messages {
            queues: Queues::new(alloc),
            waits: Waits {
                froms: Numbers::new(alloc),
                lines: Lines::new(alloc),
                copies: no_copies(),
                next: 0,
                room: 0,
            },
            ready: Ready {
                lines: InLine::new(alloc),
                froms: Numbers::new(alloc),
                next: 0,
                room: 0,
            },
        }
    }

    /// How many messages wait. Constant time.
    pub fn waiting_len(&self) -> usize
        ensures { result ≡ length self.now.waiting.items }
    {
        self.queues.len(WAITING)
    }

    /// How many jobs are ready. Constant time.
    pub fn ready_len(&self) -> usize
        ensures { result ≡ length self.now.jobs.ready }
    {
        self.queues.len(READY)
    }

    /// How many jobs run. Constant time.
    pub fn running_len(&self) -> usize
        ensures { result ≡ length self.now.jobs.running }
    {
        self.queues.len(RUNNING)
    }

    /// The messages from a space that wait, in order. A look for each of them.
    pub fn waiting_from(&self, peer: SpaceId) -> From<'_>
        ensures items { result ≡ filter (λ message. message.from == peer) self.now.waiting.items }
        ensures fits { length result < 2 ^ 64 }
    {
        From {
            queues: &self.queues,
            queue: WAITING,
            stamps: self.waits.froms.iter(peer),
        }
    }

    /// The ready jobs that came from a space, in order. A look for each of them.
    pub fn ready_from(&self, peer: SpaceId) -> From<'_>
        ensures items { result ≡ filter (λ message. message.from == peer) self.now.jobs.ready }
        ensures fits { length result < 2 ^ 64 }
    {
        From {
            queues: &self.queues,
            queue: READY,
            stamps: self.ready.froms.iter(peer),
        }
    }

    /// Whether a message that waits carries a counted reference of this owner. Constant time.
    pub fn carries_any_of(&self, owner: SpaceId) -> bool
        ensures { result ≡ list_any (carries_any_of owner) self.now.waiting.items }
    {
        has_copies(&self.waits.copies, owner)
    }

    /// Makes room for one message of so many copies that waits. Only memory fails it, or that more
    /// came in all than can be counted; the messages and what is awaited are the same in any case.
    /// Constant time on average.
    pub fn reserve_waiting(&mut self, copies: usize) -> Result<(), AllocError>
        ensures items { self.new.waiting.items ≡ self.old.waiting.items }
        ensures awaited { self.new.waiting.awaited ≡ self.old.waiting.awaited }
        ensures ok { OnOk result (copies < self.new.waiting.room) }
        ensures succeeds { copies < self.old.waiting.room → IsOk result }
        ensures room { self.old.waiting.room ≤ self.new.waiting.room }
        ensures ready { self.new.jobs.ready ≡ self.old.jobs.ready }
        ensures running { self.new.jobs.running ≡ self.old.jobs.running }
        ensures ready_room { self.old.jobs.ready_room ≤ self.new.jobs.ready_room }
        ensures settled_room { self.new.jobs.settled_room ≡ self.old.jobs.settled_room }
        ensures running_room { self.new.jobs.running_room ≡ self.old.jobs.running_room }
    {
        if copies < self.waits.room {
            return Ok(());
        }
        if self.waits.next > MOST || copies as u64 >= MOST {
            return Err(AllocError);
        }
        self.queues.reserve(1)?;
        self.queues.widen(WAITING, 1)?;
        self.waits.froms.reserve(1)?;
        self.waits.lines.reserve(copies)?;
        self.waits.room = copies + 1;
        Ok(())
    }

    /// Makes room for so many more ready jobs that didn't wait. Only memory fails it, or that more
    /// came in all than can be counted; the messages are the same in any case. Constant time on
    /// average.
    pub fn reserve_ready(&mut self, additional: usize) -> Result<(), AllocError>
        ensures waiting { self.new.waiting ≡ self.old.waiting }
        ensures ready { self.new.jobs.ready ≡ self.old.jobs.ready }
        ensures running { self.new.jobs.running ≡ self.old.jobs.running }
        ensures ready_room { self.old.jobs.ready_room ≤ self.new.jobs.ready_room }
        ensures settled_room { self.old.jobs.settled_room ≤ self.new.jobs.settled_room }
        ensures running_room { self.new.jobs.running_room ≡ self.old.jobs.running_room }
        ensures ok { OnOk result (additional ≤ self.new.jobs.ready_room) }
        ensures succeeds { additional ≤ self.old.jobs.ready_room → IsOk result }
    {
        self.reserve_settled(additional)?;
        self.queues.reserve(additional)
    }

    /// Makes room for so many more ready jobs that wait now. It is as `reserve_ready`, but that it
    /// wants no memory for the messages themselves.
    pub fn reserve_settled(&mut self, additional: usize) -> Result<(), AllocError>
        ensures waiting { self.new.waiting ≡ self.old.waiting }
        ensures ready { self.new.jobs.ready ≡ self.old.jobs.ready }
        ensures running { self.new.jobs.running ≡ self.old.jobs.running }
        ensures ready_room { self.old.jobs.ready_room ≤ self.new.jobs.ready_room }
        ensures settled_room { self.old.jobs.settled_room ≤ self.new.jobs.settled_room }
        ensures running_room { self.new.jobs.running_room ≡ self.old.jobs.running_room }
        ensures within { self.old.jobs.ready_room ≤ self.old.jobs.settled_room }
        ensures ok { OnOk result (additional ≤ self.new.jobs.settled_room) }
        ensures succeeds { additional ≤ self.old.jobs.settled_room → IsOk result }
    {
        if additional <= self.ready.room {
            return Ok(());
        }
        if ready::MOST - self.ready.next < additional as u64 {
            return Err(AllocError);
        }
        self.queues.widen(READY, additional)?;
        self.ready.lines.reserve(additional)?;
        self.ready.froms.reserve(additional)?;
        self.ready.room = additional;
        Ok(())
    }

    /// Makes room for so many more jobs that run. Only memory fails it, and the messages are the
    /// same in any case. Constant time on average.
    pub fn reserve_running(&mut self, additional: usize) -> Result<(), AllocError>
        ensures waiting { self.new.waiting ≡ self.old.waiting }
        ensures ready { self.new.jobs.ready ≡ self.old.jobs.ready }
        ensures running { self.new.jobs.running ≡ self.old.jobs.running }
        ensures ready_room { self.new.jobs.ready_room ≡ self.old.jobs.ready_room }
        ensures settled_room { self.new.jobs.settled_room ≡ self.old.jobs.settled_room }
        ensures running_room { self.old.jobs.running_room ≤ self.new.jobs.running_room }
        ensures ok { OnOk result (additional ≤ self.new.jobs.running_room) }
        ensures succeeds { additional ≤ self.old.jobs.running_room → IsOk result }
    {
        self.queues.widen(RUNNING, additional)
    }

    /// Puts a message behind all others that wait, where there is room for it. It takes no memory.
    /// Linear in its copies. The caller's condition: a reference of which a copy of it is due, and
    /// for which others wait, is awaited.
    pub fn push_waiting(&mut self, message: Message)
        requires room { length message.copies < self.old.waiting.room }
        requires new { IsNew self.old.waiting message }
        ensures items { self.new.waiting.items ≡ self.old.waiting.items ++ message ∷ [] }
        ensures awaited { (rep : WireRepOf) → is_awaited self.new.waiting.awaited rep
            ≡ (is_awaited self.old.waiting.awaited rep || is_due_in (message ∷ []) rep) }
        ensures ready { self.new.jobs.ready ≡ self.old.jobs.ready }
        ensures running { self.new.jobs.running ≡ self.old.jobs.running }
        ensures settled_room { self.new.jobs.settled_room ≡ self.old.jobs.settled_room }
        ensures running_room { self.new.jobs.running_room ≡ self.old.jobs.running_room }
    {
        let stamp = self.waits.next;
        let copies = message.copies.as_slice();
        let waits = line_up(&mut self.waits.lines, copies, stamp);
        count_all(&mut self.waits.copies, copies);
        self.waits.next = stamp + 1 + copies.len() as u64;
        self.waits.room = 0;
        self.waits.froms.push(message.from, stamp);
        self.queues.push(WAITING, stamp, Entry { message, waits });
        self.queues.mark(WAITING, stamp, waits == 0);
    }

    /// One job more is ready that didn't wait, where there is room for it. It takes no memory. A few
    /// look-ups.
    pub fn push_ready(&mut self, message: Message)
        requires { 0 < self.old.jobs.ready_room }
        ensures items { self.new.waiting.items ≡ self.old.waiting.items }
        ensures awaited { self.new.waiting.awaited ≡ self.old.waiting.awaited }
        ensures ready { self.new.jobs.ready ≡ self.old.jobs.ready ++ message ∷ [] }
        ensures running { self.new.jobs.running ≡ self.old.jobs.running }
        ensures ready_room { self.new.jobs.ready_room + 1 ≡ self.old.jobs.ready_room }
        ensures settled_room { self.new.jobs.settled_room + 1 ≡ self.old.jobs.settled_room }
        ensures running_room { self.new.jobs.running_room ≡ self.old.jobs.running_room }
    {
        let stamp = self.ready.next;
        self.ready.lines.push(stamp, target_of(&message.item));
        self.ready.froms.push(message.from, stamp);
        self.queues.push(READY, stamp, Entry { message, waits: 0 });
        self.ready.next += 1;
        self.ready.room -= 1;
        self.waits.room = 0;
    }

    /// A reference is lost: nothing is to come for it. It takes no memory. Linear in the copies of it
    /// that are due, each with a look for its message.
    pub fn lose(&mut self, rep: &WireRep)
        ensures items { self.new.waiting.items ≡ self.old.waiting.items }
        ensures awaited { (other : WireRepOf) → is_awaited self.new.waiting.awaited other
            ≡ (not (is_same rep.now other) && is_awaited self.old.waiting.awaited other) }
        ensures room { self.new.waiting.room ≡ self.old.waiting.room }
        ensures jobs { self.new.jobs ≡ self.old.jobs }
    {
        lower_line(&mut self.queues, &self.waits.lines, rep);
        self.waits.lines.clear(rep);
    }

    /// All references of an owner are lost. It takes no memory. Linear in the copies of them that are
    /// due, each with a look for its message.
    pub fn lose_of(&mut self, owner: SpaceId)
        ensures items { self.new.waiting.items ≡ self.old.waiting.items }
        ensures awaited { (other : WireRepOf) → is_awaited self.new.waiting.awaited other
            ≡ (not (other.owner == owner) && is_awaited self.old.waiting.awaited other) }
        ensures room { self.new.waiting.room ≡ self.old.waiting.room }
        ensures jobs { self.new.jobs ≡ self.old.jobs }
    {
        lower_all(&mut self.queues, &self.waits.lines, owner);
        self.waits.lines.clear_of(owner);
    }

    /// Makes the loans of a reference that are due: how many. It takes no memory, and moves no
    /// message. Linear in the copies of the messages that wait for it. The caller's conditions: it is
    /// awaited where messages wait for it, and the loans can be counted in 64 bits.
    pub fn lend(&mut self, rep: &WireRep) -> u64
        requires open { is_due_in self.old.waiting.items rep.now ≡ true
            → is_awaited self.old.waiting.awaited rep.now ≡ true }
        requires count { due_to_all rep.now self.old.waiting.items < 2 ^ 64 }
        ensures items { self.new.waiting.items
            ≡ map (granted_message rep.now) self.old.waiting.items }
        ensures count { result ≡ due_to_all rep.now self.old.waiting.items }
        ensures awaited { (other : WireRepOf) → is_awaited self.new.waiting.awaited other
            ≡ (not (is_same rep.now other) && is_awaited self.old.waiting.awaited other) }
        ensures room { self.new.waiting.room ≡ self.old.waiting.room }
        ensures jobs { self.new.jobs ≡ self.old.jobs }
    {
        let lent = lend_line(&mut self.queues, &self.waits.lines, rep);
        self.waits.lines.clear(rep);
        lent
    }

    /// The first message that may be settled: none of its copies that is due is of a reference that
    /// is awaited. A few words of bits, and a look for its message.
    pub fn first_settleable(&self) -> Option<&Message>
        ensures { option_copied result
            ≡ find (is_settleable_in self.now.waiting) self.now.waiting.items }
    {
        let stamp = self.queues.first_marked(WAITING, 0)?;
        let entry = self.queues.get(WAITING, stamp)?;
        Some(&entry.message)
    }

    /// The first message that may be settled, if there is one, waits no more and is ready, behind all
    /// others. It takes no memory, and moves no message. As `first_settleable`, with a few look-ups,
    /// and linear in its copies. The caller's condition: there is room for it among the ready.
    pub fn settle(&mut self)
        requires { 0 < self.old.jobs.settled_room }
        ensures items { self.new.waiting.items
            ≡ without_first (is_settleable_in self.old.waiting) self.old.waiting.items }
        ensures awaited { self.new.waiting.awaited ≡ self.old.waiting.awaited }
        ensures room { self.new.waiting.room ≡ self.old.waiting.room }
        ensures ready { self.new.jobs.ready ≡ self.old.jobs.ready
            ++ if_any (find (is_settleable_in self.old.waiting) self.old.waiting.items) }
        ensures running { self.new.jobs.running ≡ self.old.jobs.running }
        ensures settled_room { self.old.jobs.settled_room ≤ self.new.jobs.settled_room + 1 }
        ensures running_room { self.new.jobs.running_room ≡ self.old.jobs.running_room }
    {
        let Some(stamp) = self.queues.first_marked(WAITING, 0) else {
            return;
        };
        let Some(entry) = self.queues.get(WAITING, stamp) else {
            return;
        };
        let peer = entry.message.from;
        let under = self.ready.next;
        self.ready.lines.push(under, target_of(&entry.message.item));
        uncount_all(&mut self.waits.copies, entry.message.copies.as_slice());
        self.waits.froms.take(peer, stamp);
        self.ready.froms.push(peer, under);
        self.queues.shift(WAITING, stamp, READY, under);
        self.ready.next += 1;
        self.ready.room -= 1;
    }

    /// Takes the first message out that may be settled: it stands here no longer. It takes no memory.
    /// As `first_settleable`, and linear in its copies on average beside that.
    pub fn take_settleable(&mut self) -> Option<Message>
        ensures message { result ≡ find (is_settleable_in self.old.waiting) self.old.waiting.items }
        ensures items { self.new.waiting.items
            ≡ without_first (is_settleable_in self.old.waiting) self.old.waiting.items }
        ensures awaited { self.new.waiting.awaited ≡ self.old.waiting.awaited }
        ensures room { self.new.waiting.room ≡ self.old.waiting.room }
        ensures jobs { self.new.jobs ≡ self.old.jobs }
    {
        let stamp = self.queues.first_marked(WAITING, 0)?;
        let Entry { message, .. } = self.queues.take(WAITING, stamp)?;
        uncount_all(&mut self.waits.copies, message.copies.as_slice());
        self.waits.froms.take(message.from, stamp);
        Some(message)
    }

    /// Drops the messages from a space that wait, whose session has closed. It takes no memory.
    /// Linear in those messages and their copies, with a look for each message.
    pub fn drop_waiting(&mut self, peer: SpaceId)
        ensures items { self.new.waiting.items
            ≡ filter (is_not_from peer) self.old.waiting.items }
        ensures awaited { self.new.waiting.awaited ≡ self.old.waiting.awaited }
        ensures room { self.new.waiting.room ≡ self.old.waiting.room }
        ensures jobs { self.new.jobs ≡ self.old.jobs }
    {
        drop_all(
            &mut self.queues,
            &mut self.waits.copies,
            &self.waits.froms,
            peer,
        );
        self.waits.froms.clear(peer);
    }

    /// Drops the ready jobs from a space, whose session has closed. It takes no memory. Linear in
    /// them, each with a few look-ups.
    pub fn drop_ready(&mut self, peer: SpaceId)
        ensures waiting { self.new.waiting ≡ self.old.waiting }
        ensures ready { self.new.jobs.ready ≡ filter (is_not_from peer) self.old.jobs.ready }
        ensures running { self.new.jobs.running ≡ self.old.jobs.running }
        ensures ready_room { self.new.jobs.ready_room ≡ self.old.jobs.ready_room }
        ensures settled_room { self.new.jobs.settled_room ≡ self.old.jobs.settled_room }
        ensures running_room { self.new.jobs.running_room ≡ self.old.jobs.running_room }
    {
        drop_jobs(
            &mut self.queues,
            &mut self.ready.lines,
            &self.ready.froms,
            peer,
        );
        self.ready.froms.clear(peer);
    }

    /// The first ready job whose target isn't running. It looks at a few words of bits, and passes
    /// no job.
    pub fn first_free(&self) -> Option<&Message>
        ensures { option_map (λ message. message.now) result
            ≡ find (is_free_of self.now.jobs.running) self.now.jobs.ready }
    {
        let Some(stamp) = self.ready.lines.links.first_marked(0) else {
            return None;
        };
        let Some(entry) = self.queues.get(READY, stamp) else {
            return None;
        };
        Some(&entry.message)
    }

    /// The first ready job whose target isn't running is claimed: it runs under this number. It takes
    /// no memory, and moves no message. Constant time on average, and a few look-ups. The caller's
    /// conditions: there is such a job, and room for one more that runs, and the number is above those
    /// of all that run.
    pub fn claim(&mut self, job: JobNo)
        requires free { IsSome (find (is_free_of self.old.jobs.running) self.old.jobs.ready) }
        requires room { 0 < self.old.jobs.running_room }
        requires above { IsAbove self.old.jobs.running job }
        ensures waiting { self.new.waiting ≡ self.old.waiting }
        ensures ready { self.new.jobs.ready
            ≡ without_first (is_free_of self.old.jobs.running) self.old.jobs.ready }
        ensures running { (message : MessageOf)
            → find (is_free_of self.old.jobs.running) self.old.jobs.ready ≡ Some message
            → self.new.jobs.running
            ≡ record { job = job; message = message } ∷ self.old.jobs.running }
        ensures ready_room { self.new.jobs.ready_room ≡ self.old.jobs.ready_room }
        ensures settled_room { self.new.jobs.settled_room ≡ self.old.jobs.settled_room }
        ensures running_room { self.new.jobs.running_room + 1 ≡ self.old.jobs.running_room }
    {
        // A target has no more jobs that run than there are.
        let _runs = self.queues.len(RUNNING);
        let Some(stamp) = self.ready.lines.links.first_marked(0) else {
            unreachable!();
        };
        let Some(entry) = self.queues.get(READY, stamp) else {
            unreachable!();
        };
        let peer = entry.message.from;
        self.ready.lines.begin(target_of(&entry.message.item));
        self.ready.lines.take(stamp);
        self.ready.froms.take(peer, stamp);
        self.queues.shift(READY, stamp, RUNNING, job.get());
    }

    /// The message of the job that runs under this number: no two have one number. Logarithmic in
    /// the jobs that run.
    pub fn find_run(&self, job: JobNo) -> Option<&Message>
        ensures found { option_map (λ message. record { job = job; message = message.now }) result
            ≡ find (is_run job) self.now.jobs.running }
        ensures alone { MatchOption result (filter (is_run job) self.now.jobs.running ≡ [])
            (λ message. filter (is_run job) self.now.jobs.running
            ≡ record { job = job; message = message.now } ∷ []) }
    {
        // Their numbers rise.
        let _count = self.queues.len(RUNNING);
        let Some(entry) = self.queues.get(RUNNING, job.get()) else {
            return None;
        };
        Some(&entry.message)
    }

    /// Ends the job of this number, if it runs. It takes no memory. Logarithmic in the jobs that run,
    /// and constant time on average beside that.
    pub fn end(&mut self, job: JobNo)
        ensures waiting { self.new.waiting ≡ self.old.waiting }
        ensures ready { self.new.jobs.ready ≡ self.old.jobs.ready }
        ensures running { self.new.jobs.running
            ≡ filter (λ run. not (is_run job run)) self.old.jobs.running }
        ensures ready_room { self.new.jobs.ready_room ≡ self.old.jobs.ready_room }
        ensures settled_room { self.new.jobs.settled_room ≡ self.old.jobs.settled_room }
        ensures running_room { self.new.jobs.running_room ≡ self.old.jobs.running_room }
    {
        // Their numbers rise.
        let _count = self.queues.len(RUNNING);
        let Some(entry) = self.queues.take(RUNNING, job.get()) else {
            return;
        };
        self.ready.lines.end(target_of(&entry.message.item));
    }
}
