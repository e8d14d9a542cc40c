//! A turn that may be refused: it must be spent, by what came of its try.

ghost use Rattle.std.specs.Prelude.{◌≡◌, true, false, is_some, MatchOption};

use crate::retry::Retry;
use crate::retry::note::Note;

/// A turn that tries what waits. It knows whether a refusal was noted before.
pub struct Tries<'a> {
    retry: &'a Retry,
    noted: Option<Note<'a>>,
}

impl<'a> Tries<'a> {
    /// Begins, and reads whether a refusal is noted.
    pub fn begin(retry: &'a Retry) -> Tries<'a> {
        Tries {
            retry,
            noted: Note::read(retry),
        }
    }

    /// It was refused. Where no refusal was noted before, this one is noted, and what was refused is
    /// tried once more. Else the turn ends: whoever makes room finds the note.
    pub fn refused(self) -> Option<Tries<'a>>
        ensures { MatchOption result (is_some self.entry.noted ≡ true)
            (λ again. (is_some self.entry.noted ≡ false) × (is_some again.noted ≡ true)) }
    {
        let Tries { retry, noted } = self;
        match noted {
            Some(noted) => {
                noted.stand();
                None
            }
            None => Some(Tries {
                retry,
                noted: Some(Note::make(retry)),
            }),
        }
    }

    /// It was refused, which is noted, and the turn ends: its caller sees to it that another comes.
    pub fn leave(self) {
        let Tries { retry, noted } = self;
        match noted {
            Some(noted) => noted.stand(),
            None => Note::make(retry).stand(),
        }
    }

    /// It did something, and tries what waits next, with no refusal noted.
    pub fn did(self) -> Tries<'a>
        ensures { is_some result.noted ≡ false }
    {
        let Tries { retry, noted } = self;
        if let Some(noted) = noted {
            noted.take_back();
        }
        Tries { retry, noted: None }
    }

    /// It found nothing that waits: the turn ends, with no refusal noted.
    pub fn found_none(self) {
        let Tries { retry: _, noted } = self;
        if let Some(noted) = noted {
            noted.take_back();
        }
    }
}
