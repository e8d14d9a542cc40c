//! What is asked for.

ghost use Rattle.std.specs.Prelude.{◌≡◌};
ghost use Rattle.nob_drawing_choice.specs.Choices as spec;

use nob_frame::Frame;
use nob_ids::WireRep;

/// Which rows are drawn: those for which all holds that is asked for. An entry that is wrong is
/// drawn whatever is asked for.
#[derive(Clone, Copy, Debug, PartialEq, Eq)]
pub struct Choice {
    /// The owner of the references whose life is drawn: `None` for any.
    pub owner: Option<u16>,
    /// Their index: `None` for any. Where neither is given, what is drawn needn't be of any life.
    pub index: Option<u64>,
    /// The space whose entries are drawn, with those of others by which a frame from it arrives or
    /// one for it is given: `None` for all.
    pub space: Option<u16>,
    /// Whether refused entries are left out, and Acks that arrive or are given alone.
    pub brief: bool,
}

impl Choice {
    /// All rows.
    pub fn all() -> Choice
        ensures { result ≡ spec.all_rows }
    {
        Choice {
            owner: None,
            index: None,
            space: None,
            brief: false,
        }
    }
}

// Whether the number of a space is the one that is asked for, if any is.
fn is_space_asked(asked: Option<u16>, number: u16) -> bool
    ensures { result ≡ spec.is_asked asked number }
{
    match asked {
        None => true,
        Some(asked) => asked == number,
    }
}

// Whether an index is the one that is asked for, if any is.
fn is_index_asked(asked: Option<u64>, number: u64) -> bool
    ensures { result ≡ spec.is_asked asked number }
{
    match asked {
        None => true,
        Some(asked) => asked == number,
    }
}

// Whether a space is the one that is asked for, if any is.
pub(crate) fn is_of_space(choice: &Choice, number: u16) -> bool
    ensures { result ≡ spec.is_asked choice.now.space number }
{
    is_space_asked(choice.space, number)
}

// Whether a reference is one whose life is asked for.
pub(crate) fn is_subject(choice: &Choice, rep: WireRep) -> bool
    ensures { result ≡ spec.is_subject choice.now rep }
{
    is_space_asked(choice.owner, rep.owner.get()) && is_index_asked(choice.index, rep.index)
}

// Whether a life is asked for.
pub(crate) fn has_subject(choice: &Choice) -> bool
    ensures { result ≡ spec.has_subject choice.now }
{
    choice.owner.is_some() || choice.index.is_some()
}

// Whether a frame is from or to the space that is asked for.
pub(crate) fn is_with(choice: &Choice, frame: &Frame) -> bool
    ensures { result ≡ spec.is_with choice.now frame.now }
{
    is_space_asked(choice.space, frame.from.get()) || is_space_asked(choice.space, frame.to.get())
}
