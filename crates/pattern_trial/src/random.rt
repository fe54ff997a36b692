// Numbers that look like chance, the same for the same seed.
// A generator of such numbers (splitmix64).
#[derive(Clone, Copy)]
pub struct Random {
    state: u64,
}

impl Random {
    // The generator of a seed.
    pub fn new(seed: u64) -> Random {
        Random { state: seed }
    }

    // The next number.
    fn next(&mut self) -> u64 {
        self.state = self.state.wrapping_add(0x9e37_79b9_7f4a_7c15);
        let first = (self.state ^ (self.state >> 30)).wrapping_mul(0xbf58_476d_1ce4_e5b9);
        let second = (first ^ (first >> 27)).wrapping_mul(0x94d0_49bb_1331_11eb);
        second ^ (second >> 31)
    }

    // A number below the end, and 0 if that is 0.
    pub fn below(&mut self, end: usize) -> usize {
        self.next() as usize % end.max(1)
    }

    // Yes once in so many times.
    pub fn one_in(&mut self, times: usize) -> bool {
        self.below(times) == 0
    }
}
