// The texts of a longer run.
ghost use Rattle.yoda_app.specs.LongerTexts.{LongerTexts};

use plain_run::longer_runs;

/// The capture that `plain` writes of a longer trace begins with the one that it writes of a shorter trace, and so do the
/// lines of the report, all but the last one, which counts: where the script's further lines are for later records, and no
/// line tells of want of memory.
///
/// So who runs `plain` anew over a trace that grows finds what is new behind what was there.
pub fn longer_texts()
    ensures { LongerTexts }
{
    longer_runs();
}
