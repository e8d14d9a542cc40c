//! Rounds that bring a world to rest: what each space has to send is brought to the others, which
//! act on it; then each space settles and gives up what it can. And what the entries of a world tell
//! once it rests: how the ends of sessions stand, and how often what happened. And numbers that look random, and
//! choices by them: spaces, objects, values, events and steps of a world.
#![tactic(auto)]

mod asking;
mod askings;
mod choices;
mod ending;
mod facts;
mod known;
mod results;
mod rounds;
mod row;
mod sessions;
mod steps;

pub use asking::{Asking, MOST_REPEATS, ask, ask_each, repeat, repeat_each};
pub use choices::{random_object, random_outcome, random_space, random_value};
pub use ending::end;
pub use facts::{Facts, facts_of, news_in};
pub use known::{Known, known_of, objects_of};
pub use results::Kind;
pub use rounds::{bring, deliver, deliver_each, round, spaces_in};
pub use row::Words;
pub use sessions::{SessionEnd, SessionState, closed_ends, is_open, standing_of, unopen_ends};
pub use steps::{random_event, random_step};
