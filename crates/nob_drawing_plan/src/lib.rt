//! What a drawing of a journal shows, as plain data in the words of the model: an arrow for each
//! frame that arrives, the frames that never do, and a bar as long as an object is live, a client
//! is listed or a reference is pinned.
#![tactic(auto)]

mod bar;
mod flight;
pub mod laws;
mod mark;
mod marks;
mod passing;
mod steps;

pub use bar::{Bar, bars};
pub use flight::{Arrow, Departure, Flown, Stray, flights, lost};
pub use mark::Mark;
pub use marks::marks_at;
