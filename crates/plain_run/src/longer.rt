//! A run of a longer trace.
ghost use Rattle.plain_run.specs.Longer.{LongerRuns};

/// A run of a longer trace begins with the run of the shorter one, where the script's further lines are for later records.
///
/// So who watches a trace that grows may run it anew each time and act on what is new: what was sent before is sent again, in
/// the same order, before anything else, and each record keeps its line. Where memory was refused to a record of either run,
/// the longer run still begins with a run of the shorter inputs, but perhaps with another one.
pub fn longer_runs()
    ensures { LongerRuns }
{}
