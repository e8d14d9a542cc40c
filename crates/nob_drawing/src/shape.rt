//! Shapes with their places.

use nob_bytes::Bytes;

/// A place: so far to the right, and so far down.
#[derive(Clone, Copy, Debug)]
pub struct Point {
    /// How far to the right.
    pub x: u128,
    /// How far down.
    pub y: u128,
}

/// What a shape is for, which says how it looks.
#[derive(Clone, Copy, Debug)]
pub enum Style {
    /// A lifeline.
    Life,
    /// From the text of an entry to its lifeline.
    Guide,
    /// The name of a space.
    Name,
    /// The number of a row.
    Number,
    /// Of which run a drawing is.
    Title,
    /// What of it is shown.
    Shown,
    /// What is said beside the text of an entry.
    Gloss,
    /// An entry that was answered.
    Answered,
    /// An entry that was refused.
    Refused,
    /// An entry that closed a session.
    Closing,
    /// The entry that is wrong.
    Fault,
    /// A frame that arrives.
    Sent,
    /// One whose item was given before.
    Again,
    /// One that took nothing.
    TookNothing,
    /// One that took nothing, whose item was given before.
    TookNothingAgain,
    /// A frame that arrives, of whose arrow the beginning isn't shown.
    Part,
    /// One that took nothing.
    PartTookNothing,
    /// A frame whose arrival isn't shown.
    Open,
    /// One that took nothing.
    OpenTookNothing,
    /// A frame that never arrives.
    Lost,
    /// One whose item was given before.
    LostAgain,
    /// Where such a frame ends.
    Cross,
    /// A frame that arrives and was given by nobody.
    Stray,
    /// Where such a frame begins.
    Void,
    /// As long as an object is live.
    Live,
    /// As long as a client is listed.
    Listed,
    /// As long as a reference is pinned.
    Pinned,
    /// What a bar shows.
    Held,
    /// The words of a frame, in front of a point.
    Before,
    /// The words of a frame, behind a point.
    Behind,
}

/// A shape.
#[derive(Debug, Drop)]
pub enum Shape {
    /// A line from one point to another.
    Line(Style, Point, Point),
    /// A box: its upper left corner, how wide and how high it is.
    Rectangle(Style, Point, u128, u128),
    /// A box with words that are shown where one points at it.
    Titled(Style, Point, u128, u128, Bytes),
    /// A text at a point.
    Text(Style, Point, Bytes),
    /// A text at a point, behind a note that isn't shown: of whose lives a row is part.
    Noted(Style, Point, Bytes, Bytes),
    /// A text that goes downwards from a point.
    Turned(Style, Point, Bytes),
}
