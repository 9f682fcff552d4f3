//! Colours of a report.

/// What is written before and behind the parts of a report that have colour.
#[derive(Clone, Copy)]
pub struct Paint {
    /// written before the place of a fault
    pub place: &'static str,
    /// written before the marks and their label
    pub mark: &'static str,
    /// written behind each of them
    pub end: &'static str,
}

impl Paint {
    /// no colours
    pub const NONE: Paint = Paint {
        place: "",
        mark: "",
        end: "",
    };

    /// the colours of a terminal: places in bold, marks in red
    pub const TERMINAL: Paint = Paint {
        place: "\x1b[1m",
        mark: "\x1b[1;31m",
        end: "\x1b[0m",
    };
}
