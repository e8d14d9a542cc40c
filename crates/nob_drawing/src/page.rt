//! What of a journal is shown.

use nob_drawing_choice::Choice;

/// What of a journal is shown.
#[derive(Clone, Copy, Debug)]
pub struct Page {
    /// How many spaces there are.
    pub n: u16,
    /// How many entries there are.
    pub entries: usize,
    /// Whether they are a run of a world.
    pub accepted: bool,
    /// The number of the entry that is wrong.
    pub fault: Option<usize>,
    /// Which of them are asked for.
    pub choice: Choice,
    /// The number of the first entry that is asked for.
    pub first: usize,
    /// The number of the last one.
    pub last: usize,
    /// The first row that is shown, among all that may be.
    pub from: usize,
    /// The last one.
    pub to: usize,
}
