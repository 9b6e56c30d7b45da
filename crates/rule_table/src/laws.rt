ghost use Rattle.rule_table.specs.Laws.{AdmittedByHead, MatchedByHead, MatchedIsRule, PickedIsAdmitted};

/// What holds of every match: the head alone tells which rule matches and which servers are admitted, a number that
/// matches is that of a rule, and the server that a draw picks of that rule's choices is admitted.
pub fn matches()
    ensures matched { MatchedByHead }
    ensures admitted { AdmittedByHead }
    ensures rule { MatchedIsRule }
    ensures picked { PickedIsAdmitted }
{}
