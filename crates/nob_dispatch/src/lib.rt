//! Jobs, and a pool that runs objects in threads: who claims jobs and who carries them out, each
//! with its ends of the two lanes between them, and the loop of a worker's thread.
#![tactic(auto)]

mod calls;
mod desk;
mod dispatcher;
mod errand;
mod gate;
mod hand;
mod pool;
mod shelf;
mod stage;
mod telling;
mod worker;

pub use calls::JobCalls;
pub use desk::{Assigned, Desk, MAX_AWAY};
pub use dispatcher::{Dispatcher, Handing, Remaining};
pub use errand::{Errand, Return};
pub use gate::{Gate, OpenGate};
pub use hand::{Deed, Hand};
pub use nob_keeper::{KeeperError, Seat};
pub use pool::{carry_out, serve};
pub use shelf::{AddError, Place, Shelf};
pub use worker::{Progress, Worker};
