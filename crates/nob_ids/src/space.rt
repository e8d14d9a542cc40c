//! Spaces.

ghost use Rattle.std.specs.Prelude.{◌≡◌, ◌↔◌, ◌<◌, ◌≤◌, ◌^◌, ◌-◌, ◌+◌, ℕ, IsSome, IfSome};
ghost use Rattle.nob_ids.specs.Names.{IsSpace, most_spaces};

use std::fmt;
use std::marker::Model;

/// An address space, numbered 1 to 32. Contracts see its number.
#[derive(Clone, Copy, Debug, PartialEq, Eq, PartialOrd, Ord, Hash)]
pub struct SpaceId {
    number: u16,
}

impl Model for SpaceId {
    ghost use Rattle.std.specs.Prelude.{ℕ, ◌≤◌};

    ghost Value = { ℕ };

    ghost view = { λ space. space.number };

    ghost invariant = { λ space. (1 ≤ space.number) × (space.number ≤ 32) };

    ghost inverse = { λ number. record { number = number } };
}

impl SpaceId {
    /// The greatest number of a space.
    pub const MOST: u16 = 32;

    /// The space of this number: `None` where no space has it.
    pub fn new(number: u16) -> Option<SpaceId>
        ensures in_range { IsSome result ↔ IsSpace number }
        ensures value { IfSome result (λ space. space ≡ number) }
    {
        if number == 0 || number > SpaceId::MOST {
            return None;
        }
        Some(SpaceId { number })
    }

    /// The space's number, from 1 to 32.
    pub fn get(self) -> u16
        ensures value { result ≡ self }
        ensures in_range { IsSpace result }
    {
        self.number
    }

    /// The space's place among spaces that are counted from 0: 0 to 31.
    pub fn place(self) -> usize
        ensures value { result ≡ self - 1 }
        ensures next { 1 + result ≡ self }
        ensures in_range { result < most_spaces }
    {
        self.get() as usize - 1
    }
}

impl fmt::Display for SpaceId {
    ghost use Rattle.std.specs.Prelude.{Some};
    ghost use Rattle.std.specs.Fmt.{decimal};

    ghost output = { λ space. Some (decimal space) };

    fn fmt<W: fmt::Write>(&self, f: &mut fmt::Formatter<W>) -> fmt::Result {
        let number = self.number;
        write!(f, "{number}")
    }
}
