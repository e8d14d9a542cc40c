//! The words of the command line of `nobj`, and why a run ends before its input does. And what
//! `nobj spaces` does: spaces in threads of one process, of which the first exports a counter that
//! the others call; and then their chains are checked, or told in numbers where none were kept.
#![tactic(auto)]

mod command_line;
mod counter;
mod ending;
mod excerpt;
mod fault;
mod keeping;
pub mod laws;
mod options;
mod player;
mod playing;
mod scene;
mod score;
mod shares;
mod summaries;
mod telling;
mod texts;

pub use command_line::{Subcommand, judge};
pub use counter::Counter;
pub use ending::{SceneEnding, Stop, graver};
pub use excerpt::Excerpt;
pub use fault::Fault;
pub use playing::play;
pub use scene::Scene;
pub use score::Score;
pub use shares::calls_of;
pub use telling::say;
