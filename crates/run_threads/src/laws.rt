// What holds of every run in threads.
ghost use Rattle.run_threads.specs.Laws.{CallsAreNamed, VerdictsAreCaused, JournalDetermines};

use script_text::assignments;

/// What the calls of a run are for: each names the instance of the worker that makes it, or the place of a replica that the
/// script has fail then; and what a take takes is what is to be done with the record that it names.
pub fn calls_are_named()
    ensures { CallsAreNamed }
{}

/// Why a record has its line: one that no instance handles has the verdict of its frame, of its segment or of the script; any
/// other has a verdict of the handling table, but where the script has its instance crash in it, or memory was refused.
pub fn verdicts_are_caused()
    ensures { VerdictsAreCaused }
{
    assignments();
}

/// The journal of a run, with its trace, script and rules, determines its histories, entry for entry: which seat made which
/// call, with the segment that a take takes.
pub fn journal_determines()
    ensures { JournalDetermines }
{}
