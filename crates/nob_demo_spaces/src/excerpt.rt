//! What of a run is drawn.

/// Which rows of a run are drawn, as the options of `draw` say it.
#[derive(Clone, Copy, Debug, PartialEq, Eq)]
pub struct Excerpt {
    /// The first of them, counted from 1.
    pub from: usize,
    /// The last one, where there are so many.
    pub to: usize,
    /// The owner of the object whose life is drawn: `None` for any.
    pub owner: Option<u16>,
    /// Its index: `None` for any.
    pub index: Option<u64>,
    /// The space whose part is drawn: `None` for all.
    pub space: Option<u16>,
    /// Whether refused entries and Acks alone are left out.
    pub brief: bool,
}
