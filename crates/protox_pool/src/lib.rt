//! The locations of a file in little memory: the numbers of all paths and spans stand in one list.
#![tactic(auto)]

mod comments;
mod ends;
mod joined;
mod location;
mod locations;
mod pool;

pub use crate::comments::LocationComments;
pub use crate::location::PooledLocation;
pub use crate::locations::Locations;
pub use crate::pool::LocationPool;
