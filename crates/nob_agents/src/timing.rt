//! When an agent transmits.

ghost use Rattle.std.specs.Prelude.{◌≡◌, ◌-◌, Some, true, IfSome, position};
ghost use Rattle.nob_agents.specs.Pauses as pausing;
ghost use Rattle.nob_keeper.specs.Waking as waking;
ghost use Rattle.nob_model_types.specs.declared.event.Event.TheVariants as events;

use nob_ids::SpaceId;
use nob_keeper::{Due, is_new};
use nob_model_types::Event;

/// For how many turns an Ack waits for items that it could go with.
const ACK_PAUSE: u32 = 2;

/// After so many repeats to a peer that had nothing new meanwhile the time until the next one
/// doubles.
const REPEATS_AT_A_PACE: u32 = 16;

/// How often that time doubles at most.
const MAX_DOUBLINGS: u32 = 5;

/// When an agent that sends transmits to whom: what is new at once; an Ack alone after some turns,
/// in which it may still go with an item; and what is out again after a pause of more turns, or of
/// twice as many after each so many repeats, and a tick after some of these pauses.
#[derive(Clone, Copy, Debug)]
pub(crate) struct Timing {
    pause: u32,
    tick_every: u32,
    // At place p - 1: so many turns had nothing new for space p since the last Transmit to it.
    turns: [u32; 32],
    // At place p - 1: so often what is out to space p was transmitted again, and nothing new was.
    repeats: [u32; 32],
    // How many pauses passed before repeats since the last tick.
    pauses: u32,
    tick: Option<SpaceId>,
}

// How many pauses pass before what is out is transmitted once more, where it was so often.
fn pauses_after(repeats: u32) -> u32
    ensures { result ≡ pausing.pauses_after repeats }
{
    1 << (repeats / REPEATS_AT_A_PACE).min(MAX_DOUBLINGS)
}

// Whether what isn't new has waited as long as it is to: for so many turns since it was transmitted
// last, where it was repeated so often.
fn is_time(pause: u32, turns: u32, repeats: u32, due: Due) -> bool
    ensures { result ≡ pausing.is_time pause turns repeats due }
{
    match due {
        Due::Ack => turns >= pause.min(ACK_PAUSE),
        Due::Again => turns >= pause.saturating_mul(pauses_after(repeats)),
        _ => false,
    }
}

// The place of the first space for which something is new.
fn first_new(dues: &[Due; 32]) -> Option<usize>
    ensures { result ≡ position waking.is_new dues.now }
{
    dues.iter().position(|due| is_new(*due))
}

impl Timing {
    // What is out is transmitted again after so many turns, and a tick is made after so many of
    // these pauses, none where that is 0.
    pub(crate) fn new(pause: u32, tick_every: u32) -> Timing {
        Timing {
            pause,
            tick_every,
            turns: [0; 32],
            repeats: [0; 32],
            pauses: 0,
            tick: None,
        }
    }

    // What is to be asked in a turn, if something is, where a Transmit to each space would give
    // this.
    #[tactic(auto, using(crate::proofs::Pacing::new_is_next, crate::proofs::Pacing::out_is_next))]
    pub(crate) fn next(&mut self, dues: &[Due; 32]) -> Option<Event>
        ensures { IfSome result (λ event. pausing.IsNext self.old.tick dues.now event) }
    {
        if let Some(peer) = self.tick.take() {
            return Some(Event::Tick(peer));
        }
        if let Some(event) = self.next_new(dues) {
            return Some(event);
        }
        if let Some(peer) = self.first_out(dues) {
            return Some(self.transmit_again(peer, dues[peer.place()]));
        }
        self.count_turn(dues);
        None
    }

    // What is new and to be asked, if something is. No turn is counted.
    pub(crate) fn next_new(&mut self, dues: &[Due; 32]) -> Option<Event>
        ensures first { IfSome result (λ event. pausing.next_new dues.now ≡ Some event) }
        ensures tick { self.new.tick ≡ self.old.tick }
    {
        let place = first_new(dues)?;
        let peer = SpaceId::new(place as u16 + 1)?;
        self.turns[place] = 0;
        self.repeats[place] = 0;
        Some(Event::Transmit(peer))
    }

    // The first space for which what isn't new has waited as long as it is to.
    fn first_out(&self, dues: &[Due; 32]) -> Option<SpaceId>
        ensures { IfSome result (λ peer. pausing.is_due_at dues.now (peer - 1) ≡ true) }
    {
        for (place, due) in dues.iter().enumerate() {
            if self.is_time(place, *due) {
                return SpaceId::new(place as u16 + 1);
            }
        }
        None
    }

    // Whether what isn't new has waited as long as it is to, at the place of a peer.
    fn is_time(&self, place: usize, due: Due) -> bool
        ensures { result ≡ true → pausing.is_some due ≡ true }
    {
        match (self.turns.get(place), self.repeats.get(place)) {
            (Some(turns), Some(repeats)) => is_time(self.pause, *turns, *repeats, due),
            _ => false,
        }
    }

    // Transmits to a peer what isn't new. A tick follows after every so many pauses.
    fn transmit_again(&mut self, peer: SpaceId, due: Due) -> Event
        ensures { result ≡ events.Transmit peer }
    {
        let place = peer.place();
        let pauses = pauses_after(self.repeats[place]);
        self.turns[place] = 0;
        if due == Due::Again {
            self.repeats[place] = self.repeats[place].saturating_add(1);
            self.count_pauses(peer, pauses);
        }
        Event::Transmit(peer)
    }

    // More pauses have passed: the session with this peer ticks where they are as many as a tick
    // takes.
    fn count_pauses(&mut self, peer: SpaceId, pauses: u32) {
        if self.tick_every == 0 {
            return;
        }
        self.pauses = self.pauses.saturating_add(pauses);
        if self.pauses >= self.tick_every {
            self.pauses = 0;
            self.tick = Some(peer);
        }
    }

    // A turn that had nothing to ask.
    fn count_turn(&mut self, dues: &[Due; 32]) {
        for (turns, due) in self.turns.iter_mut().zip(dues.iter()) {
            *turns = if *due == Due::Nothing {
                0
            } else {
                turns.saturating_add(1)
            };
        }
        for (repeats, due) in self.repeats.iter_mut().zip(dues.iter()) {
            if *due != Due::Again {
                *repeats = 0;
            }
        }
    }
}
