// What can be read back from a journal.
ghost use Rattle.journal_text.specs.Laws.{JournalShows};

/// A journal shows all that its lines say: two lists of histories with one journal have as many shards, and on each shard the
/// same calls in the same order, but for the seats that made them and for what a take takes, which no line names. The numbers
/// of their calls are to fit 64 bits, as those of the program do.
pub fn journal_shows()
    ensures { JournalShows }
{}
