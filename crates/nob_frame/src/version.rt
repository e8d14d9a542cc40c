//! The versions of the spelling of frames.

ghost use Rattle.std.specs.Prelude.{◌≡◌};

/// A version of the spelling of frames: how long a header is, and whether it names a session.
#[derive(Clone, Copy, Debug, PartialEq, Eq)]
pub enum Version {
    /// A header of 28 bytes, which names no session: its frames are of session 1.
    One,
    /// A header of 32 bytes, whose last four are the number of the session.
    Two,
}

impl Version {
    ghost use Rattle.nob_frame.specs.Versions.{version_number, header_length};

    /// The byte that stands for the version in a header: 1 or 2.
    pub fn number(self) -> u8
        ensures { result ≡ version_number self }
    {
        match self {
            Version::One => 1,
            Version::Two => 2,
        }
    }

    /// How many bytes a header has.
    pub(crate) fn header_len(self) -> usize
        ensures { result ≡ header_length self }
    {
        match self {
            Version::One => 28,
            Version::Two => 32,
        }
    }
}
