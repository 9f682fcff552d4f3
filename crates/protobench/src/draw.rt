//! Numbers drawn from a seed, the same at each run: splitmix64, as its authors published it.

ghost use Rattle.std.specs.Prelude.{◌≤◌};

/// The state of the draws.
#[derive(Drop)]
pub struct Draw {
    state: u64,
}

impl Draw {
    pub fn new(seed: u32) -> Draw {
        Draw {
            state: u64::from(seed),
        }
    }

    /// The next number, of all 64 bits.
    pub fn next(&mut self) -> u64 {
        self.state = self.state.wrapping_add(0x9e37_79b9_7f4a_7c15);
        let z = (self.state ^ (self.state >> 30)).wrapping_mul(0xbf58_476d_1ce4_e5b9);
        let z = (z ^ (z >> 27)).wrapping_mul(0x94d0_49bb_1331_11eb);
        z ^ (z >> 31)
    }

    /// A number below 100.
    pub fn percent(&mut self) -> u64 {
        self.next() % 100
    }

    /// Whether one of 100 draws below `share` came.
    pub fn chance(&mut self, share: u64) -> bool {
        self.percent() < share
    }

    /// A number from 0 to `most`, which is below 2 ^ 32.
    pub fn up_to(&mut self, most: u32) -> u32
        ensures { result ≤ most }
    {
        (self.next() % (u64::from(most) + 1)) as u32
    }

    /// One of 16 words.
    pub fn pick(&mut self, words: &[&'static str; 16]) -> &'static str {
        words[(self.next() % 16) as usize]
    }

    /// One of 64 words.
    pub fn pick_of_many(&mut self, words: &[&'static str; 64]) -> &'static str {
        words[(self.next() % 64) as usize]
    }
}
