//! What `nobj pair` and `nobj script` do. Pair scripts: their grammar, and what the two ends of a
//! session answer to their steps. Scripts of a world: run on its spaces.
#![tactic(auto)]

mod answer;
mod batch;
mod ends;
mod judging;
mod log;
mod pair;
pub mod pair_script;
mod parse;
mod step;
mod text;
pub mod world_script;
mod world_step;

pub use answer::{Answer, Sent};
pub use pair::Pair;
pub use parse::{header_of, step_of};
pub use step::{Call, Side, Step};
pub use text::text_of;
