//! The locations of a pool, one after another.

use crate::location::PooledLocation;
use crate::pool::LocationPool;

/// The locations of a pool from some index on, in order.
#[derive(Drop)]
pub struct Locations<'a> {
    pub(crate) pool: &'a LocationPool,
    pub(crate) next: usize,
}

impl<'a> Iterator for Locations<'a> {
    type Item = PooledLocation<'a>;

    ghost use Rattle.std.specs.Prelude.{drop};
    ghost use Rattle.std.specs.Iterator.{item_count, YieldsFirst};

    ghost next_gives = { YieldsFirst (λ s. drop s.next s.pool.now) };

    ghost remaining = { item_count (λ s. drop s.next s.pool.now) };

    fn next(&mut self) -> Option<PooledLocation<'a>> {
        if self.next >= self.pool.len() {
            return None;
        }
        let found = self.pool.get(self.next);
        self.next += 1;
        found
    }
}
