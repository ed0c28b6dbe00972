//! A fixed sequence of pseudo-random numbers (SplitMix64, Steele, Lea and Flood 2014).

/// The state of the sequence.
#[derive(Clone, Copy)]
pub(crate) struct Random {
    /// Initially the seed.
    pub(crate) state: u64,
}

impl Random {
    /// Returns the next number.
    fn next(&mut self) -> u64 {
        self.state = self.state.wrapping_add(0x9e37_79b9_7f4a_7c15);
        let mixed = (self.state ^ (self.state >> 30)).wrapping_mul(0xbf58_476d_1ce4_e5b9);
        let mixed = (mixed ^ (mixed >> 27)).wrapping_mul(0x94d0_49bb_1331_11eb);
        mixed ^ (mixed >> 31)
    }

    /// Returns a number below `count`, or 0 if `count` is 0.
    pub(crate) fn below(&mut self, count: usize) -> usize {
        (self.next() as usize).checked_rem(count).unwrap_or(0)
    }
}
