//! What is measured.

use crate::reading::number_of;

/// What the spaces hold before rounds are made.
#[derive(Clone, Copy, Debug, PartialEq, Eq)]
pub(crate) enum Load {
    /// The second space has surrogates of objects in the hand, each of which the first holds too.
    Held,
    /// The second space has surrogates of objects in the hand, which the first holds no more.
    Listed,
    /// The first space has passed references to objects of the third on to the second, which waits
    /// for the third's answers.
    Waiting,
    /// The first space has passed references to objects of its own on to the second, and neither
    /// holds them nor transmits that.
    Sent,
    /// The second space has surrogates of objects of the first, has passed references to them on to
    /// the third, and neither holds them nor transmits that.
    Pinned,
    /// Calls that the second space made are ready at the first, and nobody claims them.
    Ready,
    /// Jobs of calls that the second space made run at the first, each at an object of its own.
    Running,
    /// Calls that the second space made are answered, and it hasn't taken the replies.
    Answered,
    /// The first space has sent items of a few bytes, of which the second knows nothing.
    Small,
    /// The first space has sent items of some 8,000 bytes, of which the second knows nothing.
    Large,
}

/// What is made again and again.
#[derive(Clone, Copy, Debug, PartialEq, Eq)]
pub(crate) enum Round {
    /// A reference is taken into the hand once more, and given back.
    Dup,
    /// An object is exported, released and withdrawn.
    Export,
    /// The second space calls the agent of the first, and takes a reply.
    Call,
    /// The whole life of a reference to a new object.
    Life,
    /// Both are asked what they could do next.
    Work,
    /// The second space gives the held reference up, the first in order first.
    First,
    /// The second space gives the held reference up, the last in order first.
    Last,
    /// The first space closes the session with the second, and that hears of it.
    Close,
    /// The first space transmits what it has sent, and the frames are lost.
    Transmit,
}

/// How much is held first, and how many rounds are made then.
#[derive(Clone, Copy, Debug)]
pub(crate) struct CostTask {
    pub(crate) load: Load,
    pub(crate) round: Round,
    pub(crate) held: u64,
    pub(crate) rounds: u64,
}

/// The task of a line: `None` where it has other words.
pub(crate) fn task_of(line: &str) -> Option<CostTask> {
    let mut words = line.split_whitespace();
    Some(CostTask {
        load: load_of(words.next()?)?,
        round: round_of(words.next()?)?,
        held: number_of(words.next())?,
        rounds: number_of(words.next())?,
    })
}

// What a word says that is held.
fn load_of(word: &str) -> Option<Load> {
    Some(match word {
        "held" => Load::Held,
        "listed" => Load::Listed,
        "waiting" => Load::Waiting,
        "sent" => Load::Sent,
        "pinned" => Load::Pinned,
        "ready" => Load::Ready,
        "running" => Load::Running,
        "answered" => Load::Answered,
        "small" => Load::Small,
        "large" => Load::Large,
        _ => return None,
    })
}

// What a word says that is made.
fn round_of(word: &str) -> Option<Round> {
    Some(match word {
        "dup" => Round::Dup,
        "export" => Round::Export,
        "call" => Round::Call,
        "life" => Round::Life,
        "work" => Round::Work,
        "first" => Round::First,
        "last" => Round::Last,
        "close" => Round::Close,
        "transmit" => Round::Transmit,
        _ => return None,
    })
}
