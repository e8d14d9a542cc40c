//! Few bytes, which stand beside their length and take no block.

ghost use Rattle.std.specs.Prelude.{◌≡◌, ◌≤◌, ◌<◌, [], IfSome, IfNone, length, take};

/// How many bytes are few: as many as leave `Bytes` no larger than a vector does.
pub const FEW: usize = 23;

/// At most 23 bytes.
#[derive(Clone, Copy, Debug)]
pub struct Few {
    /// The bytes, and zeros behind them.
    pub bytes: [u8; FEW],
    /// How many of them there are.
    pub len: u8,
    ghost len_in_range: { len ≤ 23 },
}

impl Few {
    /// No bytes.
    pub fn none() -> Few
        ensures { take result.len result.bytes ≡ [] }
    {
        Few {
            bytes: [0; FEW],
            len: 0,
        }
    }

    /// These bytes, where they are few.
    pub fn of(bytes: &[u8]) -> Option<Few>
        ensures same { IfSome result (λ few. take few.len few.bytes ≡ bytes.now) }
        ensures many { IfNone result (23 < length bytes.now) }
    {
        let len = bytes.len();
        if len > FEW {
            return None;
        }
        let mut few = [0; FEW];
        few[..len].copy_from_slice(bytes);
        Some(Few {
            bytes: few,
            len: len as u8,
        })
    }

    /// The bytes.
    pub fn as_slice(&self) -> &[u8]
        ensures { result.now ≡ take self.now.len self.now.bytes }
    {
        &self.bytes[..self.len as usize]
    }
}
