//! A digest of answers: a number that changes with each byte that is mixed in, and with their
//! order.

/// What is mixed in so far, and how many sources were accepted and how many faults were reported.
#[derive(Drop)]
pub struct Digest {
    value: u64,
    accepted: u64,
    faults: u64,
}

impl Digest {
    pub fn new() -> Digest {
        Digest {
            value: 0,
            accepted: 0,
            faults: 0,
        }
    }

    pub fn value(&self) -> u64 {
        self.value
    }

    pub fn accepted(&self) -> u64 {
        self.accepted
    }

    pub fn faults(&self) -> u64 {
        self.faults
    }

    /// One more source was accepted.
    pub fn count_accepted(&mut self) {
        self.accepted = self.accepted.wrapping_add(1);
    }

    /// One more fault was reported.
    pub fn count_fault(&mut self) {
        self.faults = self.faults.wrapping_add(1);
    }

    /// Mixes a number in.
    pub fn mix(&mut self, number: u64) {
        let mixed = (self.value ^ number).wrapping_mul(0x9fb2_1c65_1e98_df25);
        self.value = mixed ^ (mixed >> 32);
    }

    /// Mixes bytes in, eight at a time, and how many there are.
    pub fn mix_bytes(&mut self, bytes: &[u8]) {
        for part in bytes.chunks(8) {
            match part {
                [a, b, c, d, e, f, g, h] => {
                    self.mix(u64::from_le_bytes([*a, *b, *c, *d, *e, *f, *g, *h]));
                }
                rest => {
                    for byte in rest {
                        self.mix(u64::from(*byte));
                    }
                }
            }
        }
        self.mix(bytes.len() as u64);
    }

    /// Mixes a text in.
    pub fn mix_text(&mut self, text: &str) {
        self.mix_bytes(text.as_bytes());
    }
}
