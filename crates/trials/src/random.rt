// Numbers that depend on a seed alone.

// The generator SplitMix64.
#[derive(Clone, Copy)]
pub struct Random {
    state: u64,
}

impl Random {
    pub(crate) fn new(seed: u64) -> Random {
        Random { state: seed }
    }

    fn next(&mut self) -> u64 {
        let state = self.state.wrapping_add(0x9e37_79b9_7f4a_7c15);
        self.state = state;
        let a = (state ^ (state >> 30)).wrapping_mul(0xbf58_476d_1ce4_e5b9);
        let b = (a ^ (a >> 27)).wrapping_mul(0x94d0_49bb_1331_11eb);
        b ^ (b >> 31)
    }

    // A number below the bound; 0 where the bound is 0.
    pub(crate) fn below(&mut self, bound: usize) -> usize {
        let number = self.next() as usize;
        if bound == 0 { 0 } else { number % bound }
    }

    // A number from low to high; low where high is less.
    pub(crate) fn between(&mut self, low: usize, high: usize) -> usize {
        let width = high.saturating_sub(low).saturating_add(1);
        self.below(width).saturating_add(low)
    }

    // Whether something that happens so many times in a hundred happens now.
    pub(crate) fn chance(&mut self, percent: usize) -> bool {
        self.below(100) < percent
    }

    pub(crate) fn byte(&mut self) -> u8 {
        (self.next() & 0xff) as u8
    }

    // One of the items; the default where there are none.
    pub(crate) fn one_of<T: Copy + Default + Drop>(&mut self, items: &[T]) -> T {
        let i = self.below(items.len());
        items.get(i).copied().unwrap_or_default()
    }
}
