//! One end of a session: ordered, once-only delivery of items over frames that may be lost,
//! repeated and reordered on their way.
#![tactic(auto)]

mod closed;
mod due;
mod error;
mod places;
mod session;
pub mod wire;

pub use closed::{Arrival, Closed};
pub use due::Due;
pub use error::SessionError;
pub use nob_model_session::{EndRefusal, Kind, laws};
pub use session::Session;
