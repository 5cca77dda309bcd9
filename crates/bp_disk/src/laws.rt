//! Laws about the calls of saves.

ghost use Rattle.bp_disk.specs.Crash.{HoldsSaved, LeavesSaved};

/// The law of a crash: if each call kept the order, then FILE holds a content with which it was saved, whenever the
/// machine fails.
pub fn crash_law()
    ensures { HoldsSaved }
{}

/// The law of a kill: if each call kept the order, then FILE holds a content with which it was saved, whenever the process
/// is killed.
pub fn kill_law()
    ensures { LeavesSaved }
{}
