ghost use Rattle.script_text.specs.Laws.{AssignedIsLiving};

/// What holds of every assignment: who is assigned is an instance, and is living for the record.
pub fn assignments()
    ensures { AssignedIsLiving }
{}
