//! Laws of what is told. Each is a function that does nothing. Its contract is the law.

ghost use Rattle.protox_link_records.specs.Laws.{EachIsTold};

/// Something is told of each fault that `check` or `link` finds, so each has a record at least.
pub fn each_is_told()
    ensures { EachIsTold }
{}
