//! The limits of a session.

ghost use Rattle.std.specs.Prelude.{◌≡◌, ◌↔◌, ◌≤◌, IsSome, IfSome};

/// The limits of one end of a session.
#[derive(Clone, Copy, Debug, PartialEq, Eq)]
pub struct Limits {
    /// How many unacknowledged items one transmit gives at most: 1 to 64.
    pub window: u64,
    /// At how many counted ticks the end closes: 1 to 255.
    pub retry: u64,
    ghost window_in_range: { (1 ≤ window) × (window ≤ 64) },
    ghost retry_in_range: { (1 ≤ retry) × (retry ≤ 255) },
}

impl Limits {
    /// These limits: `None` where one is outside its range.
    pub fn new(window: u64, retry: u64) -> Option<Limits>
        ensures in_range { IsSome result
            ↔ ((1 ≤ window) × (window ≤ 64) × (1 ≤ retry) × (retry ≤ 255)) }
        ensures window { IfSome result (λ limits. limits.window ≡ window) }
        ensures retry { IfSome result (λ limits. limits.retry ≡ retry) }
    {
        if window < 1 || window > 64 || retry < 1 || retry > 255 {
            return None;
        }
        Some(Limits { window, retry })
    }
}

impl Default for Limits {
    ghost is_default = { λ limits. (limits.window ≡ 8) × (limits.retry ≡ 16) };

    /// A window of 8, a retry limit of 16.
    fn default() -> Limits {
        Limits {
            window: 8,
            retry: 16,
        }
    }
}
