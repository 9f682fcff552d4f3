//! Laws of spans. They are for proofs: none of these functions does anything.

ghost use Rattle.protox_spans.specs.Sharing.{MeetingIsSharing};

/// Two spans meet exactly if a number is in both.
pub fn meeting_is_sharing()
    ensures { MeetingIsSharing }
{}
