//! How much happens without a thread that looks from time to time.

ghost use Rattle.std.specs.Prelude.{◌≡◌, ◌-◌, false, nat_le, if◌then◌else◌};

/// How much happens between two looks of a thread. While it is much the thread may rest for longer;
/// after a longer rest more has to have happened for that.
#[derive(Clone, Copy, Debug, Drop)]
pub struct Pace {
    // How much is much after a usual rest, and after a longer one.
    much: u64,
    much_in_long: u64,
    // How much had happened at the last look, and whether it was much.
    count: u64,
    is_long: bool,
}

impl Pace {
    /// Nothing has happened; so much is much, and so much after a longer rest.
    pub fn new(much: u64, much_in_long: u64) -> Pace
        ensures { result ≡ record {
          much = much;
          much_in_long = much_in_long;
          count = 0;
          is_long = false;
        } }
    {
        Pace {
            much,
            much_in_long,
            count: 0,
            is_long: false,
        }
    }

    /// A look, at which so much has happened in all: whether it was much since the look before.
    pub fn is_much_at(&mut self, count: u64) -> bool
        ensures much { result ≡ nat_le
            (if self.old.is_long then self.old.much_in_long else self.old.much)
            (count - self.old.count) }
        ensures look { self.new ≡ record {
          much = self.old.much;
          much_in_long = self.old.much_in_long;
          count = count;
          is_long = result;
        } }
    {
        let much = if self.is_long {
            self.much_in_long
        } else {
            self.much
        };
        let more = count.saturating_sub(self.count);
        self.count = count;
        self.is_long = much <= more;
        self.is_long
    }
}
