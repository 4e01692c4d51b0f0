//! Positions and points that follow one another.

/// The numbers from one on and before another. There are none where the second is not above the first.
#[derive(Clone, Copy, Debug, PartialEq, Eq, Hash)]
pub struct Stretch {
    pub from: u32,
    pub to: u32,
}

/// The numbers from one on, cut into parts that end before these.
#[derive(Clone, Copy, Debug)]
pub struct Cuts<'a> {
    pub from: u32,
    pub ends: &'a [u32],
}
