//! A fault as people read it: `FILE:LINE:COLUMN: text`, the line of the source with marks under the
//! place, and the help.
#![tactic(auto)]

pub mod excerpt;
pub mod paint;
pub mod report;
pub mod shown;
