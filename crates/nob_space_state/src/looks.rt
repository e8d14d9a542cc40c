//! Looks at the state: sessions and references, and what went to and fro and isn't done yet. None
//! takes memory.

ghost use Rattle.std.specs.Prelude.{◌≡◌, ◌==◌, true, not, List};
ghost use Rattle.nob_ids.specs.declared.limits.Limits.{Limits as LimitsOf};
ghost use Rattle.nob_model_types.specs.declared.deed.Deed.{Deed};
ghost use Rattle.nob_model_types.specs.Sessions.{is_peer};
ghost use Rattle.nob_model_history.specs.Listing.{is_listed};
ghost use Rattle.nob_model.specs.Tallies as tallies;
ghost use Rattle.nob_space_state.specs.Stands.{StandFor, IsState, history_for};
ghost use Rattle.nob_table_rows.specs.Standings as standings;
ghost use Rattle.nob_table.specs.Table.{standing};
ghost use Rattle.nob_space_state.specs.Looks.{has_closed, number_with, has_ended, has_holds, is_gone, is_cut, has_clients};
ghost use Rattle.nob_pins.specs.Bundles.{count_of};

use crate::listings::has_clients;
use crate::parts::Parts;
use nob_ids::{SpaceId, WireRep};
use nob_model::{Backlog, Tally};
use nob_table::State;

impl Parts {
    /// Whether the end with another space has closed. Constant time.
    pub fn has_closed(&self, other: SpaceId) -> bool
        ensures { result ≡ has_closed self.now.sessions.items other }
    {
        match self.sessions.get(other.place()) {
            Some(session) => !session.is_open(),
            None => false,
        }
    }

    /// The number of the session that the end with another space is in, or 0 where there is none.
    /// Constant time.
    pub fn number(&self, other: SpaceId) -> u32
        ensures { result ≡ number_with self.now.sessions.items other }
    {
        match self.sessions.get(other.place()) {
            Some(session) => session.number(),
            None => 0,
        }
    }

    /// Whether the session of a number with another space has ended: its end has closed, or is in
    /// another session. Constant time.
    pub fn has_ended(&self, other: SpaceId, session: u32) -> bool
        ensures { result ≡ has_ended self.now.sessions.items other session }
    {
        let closed = self.has_closed(other);
        let number = self.number(other);
        closed || session != number
    }

    /// Whether anything holds a reference. A look-up.
    pub fn is_held(&self, rep: &WireRep) -> bool
        ensures { result ≡ has_holds self.now.table rep.now }
    {
        let standing = self.table.state(*rep);
        let counts = standing.counts;
        counts.is_held()
    }

    /// How often a reference is in the hand. A look-up.
    pub fn hand(&self, rep: &WireRep) -> u32
        ensures { result ≡ (standing self.now.table rep.now).counts.hand }
    {
        let standing = self.table.state(*rep);
        let counts = standing.counts;
        counts.hand
    }

    /// Whether a reference names an object of this space, not the agent, that isn't live. A
    /// look-up.
    pub fn is_gone(&self, rep: &WireRep) -> bool
        ensures { result ≡ is_gone self.now.here.space self.now.table rep.now }
    {
        let standing = self.table.state(*rep);
        let live = is_live(standing.state);
        rep.index != 0 && rep.owner == self.here.space && !live
    }

    /// Whether a client is listed for an object of this space. Logarithmic in the listings.
    pub fn has_clients(&self, index: u64) -> bool
        ensures { result ≡ has_clients self.now.dirty index }
    {
        has_clients(&self.dirty, index)
    }

    /// Whether a client is listed at an index: it was granted the object, and hasn't given it up.
    /// Logarithmic in the listings.
    pub fn lists(&self, index: u64, client: SpaceId) -> bool
        ensures { (limits : LimitsOf) (D : List Deed)
            → StandFor limits self.now D → result ≡ is_listed self.now.here.space index client D }
    {
        self.dirty.lists(index, client)
    }

    /// Whether a reference is in transit from here. A look-up.
    pub fn is_pinned(&self, rep: &WireRep) -> bool
        ensures { result ≡ not (count_of self.now.pins.bundles rep.now == 0) }
    {
        self.pins.count(*rep) != 0
    }

    /// Whether a reference is another space's, and the end with that has closed. Constant time.
    pub fn is_cut(&self, rep: &WireRep) -> bool
        ensures { result ≡ is_cut self.now.here.space self.now.sessions.items rep.now }
    {
        let closed = self.has_closed(rep.owner);
        rep.owner != self.here.space && closed
    }

    /// What went each way on the session with a peer, and how it ended. Constant time. The caller's
    /// condition: it is a peer.
    pub fn tally(&self, peer: SpaceId) -> Tally
        requires state { IsState self.now }
        requires peer { is_peer self.now.here.space self.now.here.n peer ≡ true }
        ensures { (limits : LimitsOf) (D : List Deed)
            → StandFor limits self.now D → result ≡ tallies.tally peer (history_for self.now D) }
    {
        let session = &self.sessions[peer.place()];
        Tally {
            session: session.number(),
            sent: session.handed(),
            acted: session.taken(),
            closed: session.ending(),
        }
    }

    /// How many objects are live. Constant time.
    pub fn live(&self) -> u64
        ensures { (limits : LimitsOf) (D : List Deed)
            → StandFor limits self.now D
            → result ≡ tallies.live_count self.now.here.space (history_for self.now D) }
    {
        self.table.object_count() as u64
    }

    /// How many calls aren't taken, and how many jobs are ready and run. Constant time.
    pub fn backlog(&self) -> Backlog
        ensures { (limits : LimitsOf) (D : List Deed)
            → StandFor limits self.now D → result ≡ tallies.backlog (history_for self.now D) }
    {
        Backlog {
            calls: self.calls.calls_len() as u64,
            ready: self.messages.ready_len() as u64,
            running: self.messages.running_len() as u64,
        }
    }
}

// Whether it is a live object of this space.
fn is_live(state: State) -> bool
    ensures { result ≡ standings.is_live state }
{
    match state {
        State::Live => true,
        _ => false,
    }
}
