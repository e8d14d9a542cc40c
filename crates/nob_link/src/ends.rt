//! The two ends of a link.

ghost use Rattle.std.specs.Prelude.{◌≡◌, ◌≤◌, [], length, true, false, IfOk, IfErr, OnErr, MatchResult, MatchOption};
ghost use Rattle.crossbeam_channel.specs.Claims.{IsSeatAt};
ghost use Rattle.crossbeam_channel.specs.Ends.{sends_on, receives_on};
ghost use Rattle.nob_link.specs.Ends.{link_of, known_by, with_put, with_taken, told_gone, refused_by, parcel_back, IsFull, IsCapacity};
ghost use Rattle.nob_link.specs.declared.fault.LinkError.TheVariants as link_errors;

use crate::MOST_PARCELS;
use crate::fault::{Gone, LinkError, TryPutError, TryTakeError};
use crate::parcel::Parcel;
use crate::rule::{InOrder, Known, Put, Roles, Take};
use crossbeam_channel::{
    Pass, RuledReceiver, RuledSender, TryRecvError, TrySendError, bounded_with,
};
use std::alloc::Global;
use std::marker::Model;
use std::sync::Wait;

/// The end of a link that puts parcels. Contracts see its link, the link's capacity, the parcels
/// that it has put, and whether it was answered L1.
pub struct PutEnd {
    pub(crate) sender: RuledSender<Parcel, Known, InOrder>,
    pub(crate) pass: Pass<Parcel, Known>,
    pub(crate) has_heard_gone: bool,
}

impl Drop for PutEnd {
    fn drop(self) {
        let PutEnd {
            sender: _,
            pass: _,
            has_heard_gone: _,
        } = self;
    }
}

impl Model for PutEnd {
    ghost use Rattle.nob_link.specs.Ends.{Putting};

    ghost Value = { Putting };

    ghost use Rattle.nob_link.specs.Sides.{putting_of, IsPutEnd};

    ghost view = { putting_of };

    ghost invariant = { IsPutEnd };
}

/// The end of a link that takes parcels. Contracts see its link and the parcels that it has taken.
pub struct TakeEnd {
    pub(crate) receiver: RuledReceiver<Parcel, Known, InOrder>,
    pub(crate) pass: Pass<Parcel, Known>,
}

impl Drop for TakeEnd {
    fn drop(self) {
        let TakeEnd {
            receiver: _,
            pass: _,
        } = self;
    }
}

impl Model for TakeEnd {
    ghost use Rattle.nob_link.specs.Ends.{Taking};

    ghost Value = { Taking };

    ghost use Rattle.nob_link.specs.Sides.{taking_of, IsTakeEnd};

    ghost view = { taking_of };

    ghost invariant = { IsTakeEnd };
}

/// A new link that holds at most so many parcels, 1 to 1,024: its two ends, or L2.
pub fn link(alloc: Global, capacity: usize) -> Result<(PutEnd, TakeEnd), LinkError>
    ensures one { IfOk result (λ ends. ends.0.link ≡ ends.1.link) }
    ensures new { IfOk result (λ ends. (ends.0.put ≡ []) × (ends.1.taken ≡ [])) }
    ensures gone { IfOk result (λ ends. ends.0.gone ≡ false) }
    ensures capacity { IfOk result (λ ends. (ends.0.capacity ≡ capacity) × IsCapacity capacity) }
    ensures refused { result ≡ Err link_errors.Capacity → ¬ IsCapacity capacity }
    ensures judged { ¬ IsCapacity capacity → result ≡ Err link_errors.Capacity }
{
    if capacity == 0 || capacity > MOST_PARCELS {
        return Err(LinkError::Capacity);
    }
    let (sender, receiver, mut pass) = bounded_with::<Parcel, Known, InOrder, Global>(
        alloc, capacity,
    )?;
    let taker = sender.another::<Roles>(&mut pass);
    Ok((
        PutEnd {
            sender,
            pass,
            has_heard_gone: false,
        },
        TakeEnd {
            receiver,
            pass: taker,
        },
    ))
}

impl PutEnd {
    // The channel's end and the pass.
    pub(crate) fn into_parts(self) -> (RuledSender<Parcel, Known, InOrder>, Pass<Parcel, Known>)
        ensures link { self.link ≡ link_of result.1 }
        ensures put { self.put ≡ (known_by result.1).put }
        ensures seat { IsSeatAt (sends_on result.0) result.1 }
        ensures puts { (known_by result.1).puts ≡ true }
    {
        let PutEnd {
            sender,
            pass,
            has_heard_gone: _,
        } = self;
        (sender, pass)
    }

    /// Whether it was answered L1: it has heard that the other end is gone.
    pub fn has_heard_gone(&self) -> bool
        ensures { result ≡ self.now.gone }
    {
        self.has_heard_gone
    }

    /// Puts a parcel, and waits while the link is full. L1 where the other end is gone: the parcel
    /// comes back. It takes no memory.
    pub fn put_as<R: Wait>(&mut self, rt: &R, parcel: Parcel) -> Result<(), Gone>
        ensures answer { MatchResult result
            (λ _. self.new ≡ with_put self.old parcel) (λ gone. gone.parcel ≡ parcel) }
        ensures err { OnErr result (self.new ≡ told_gone self.old) }
    {
        match self.sender.send_as::<Put, R>(rt, &mut self.pass, parcel) {
            Ok(()) => Ok(()),
            Err(error) => {
                self.has_heard_gone = true;
                Err(Gone {
                    parcel: error.into_inner(),
                })
            }
        }
    }

    /// Puts a parcel if the link isn't full. The parcel comes back where the link was full at one
    /// moment of the call, or where the other end is gone. It takes no memory.
    pub fn try_put_as<R: Wait>(&mut self, rt: &R, parcel: Parcel) -> Result<(), TryPutError>
        ensures answer { MatchResult result
            (λ _. self.new ≡ with_put self.old parcel) (λ error. parcel_back error ≡ parcel) }
        ensures err { IfErr result (λ error. self.new ≡ refused_by error self.old) }
        ensures full { IfErr result (λ error. IsFull error
            → self.old.capacity ≤ length self.old.put) }
    {
        match self
            .sender
            .try_send_as::<Put, R>(rt, &mut self.pass, parcel)
        {
            Ok(()) => Ok(()),
            Err(TrySendError::Full(parcel)) => Err(TryPutError::Full { parcel }),
            Err(error) => {
                self.has_heard_gone = true;
                Err(TryPutError::Gone(Gone {
                    parcel: error.into_inner(),
                }))
            }
        }
    }
}

impl TakeEnd {
    // The channel's end and the pass.
    pub(crate) fn into_parts(self) -> (RuledReceiver<Parcel, Known, InOrder>, Pass<Parcel, Known>)
        ensures link { self.link ≡ link_of result.1 }
        ensures taken { self.taken ≡ (known_by result.1).taken }
        ensures seat { IsSeatAt (receives_on result.0) result.1 }
        ensures takes { (known_by result.1).takes ≡ true }
    {
        let TakeEnd { receiver, pass } = self;
        (receiver, pass)
    }

    /// Takes the next parcel, and waits while there is none. `None` where there is none and the
    /// other end is gone.
    pub fn take_as<R: Wait>(&mut self, rt: &R) -> Option<Parcel>
        ensures { MatchOption result
            (self.new ≡ self.old) (λ parcel. self.new ≡ with_taken self.old parcel) }
    {
        self.receiver.recv_as::<Take, R>(rt, &mut self.pass).ok()
    }

    /// Takes the next parcel if there is one now: `Empty` where there was none at one moment of the
    /// call, `Gone` where the other end is gone besides.
    pub fn try_take_as<R: Wait>(&mut self, rt: &R) -> Result<Parcel, TryTakeError>
        ensures { MatchResult result
            (λ parcel. self.new ≡ with_taken self.old parcel) (λ _. self.new ≡ self.old) }
    {
        match self.receiver.try_recv_as::<Take, R>(rt, &mut self.pass) {
            Ok(parcel) => Ok(parcel),
            Err(TryRecvError::Empty) => Err(TryTakeError::Empty),
            Err(TryRecvError::Disconnected) => Err(TryTakeError::Gone),
        }
    }
}
