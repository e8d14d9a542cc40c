//! What a word of a shim does.

ghost use Rattle.std.specs.Prelude.{◌≡◌};
ghost use Rattle.nob_fault.specs.Table.{effect_of};

/// What a shim does with the next frame.
#[derive(Clone, Copy, Debug, PartialEq, Eq)]
pub enum Effect {
    /// It is lost.
    Lose,
    /// It goes on, then what is kept back.
    Go,
    /// It goes on twice, then what is kept back.
    Twice,
    /// It is kept back; what was kept back before goes on.
    Keep,
}

impl Effect {
    /// What a word does: its remainder at 4 decides.
    pub fn of_word(word: u64) -> Effect
        ensures { result ≡ effect_of word }
    {
        match word % 4 {
            0 => Effect::Lose,
            1 => Effect::Go,
            2 => Effect::Twice,
            _ => Effect::Keep,
        }
    }
}
