ghost use Rattle.server_hand.specs.Choosing.{ChosenIsAdmitted, ChosenWhereMatched};
ghost use Rattle.server_hand.specs.Opening.{OpeningNumbers, ServerSynNumbers};

/// A law: whatever the draw, a choice names the rule that the head matches, and a server of the setup that this rule
/// admits. There is a choice exactly where a rule matches.
pub fn chosen_is_admitted()
    ensures admitted { ChosenIsAdmitted }
    ensures matched { ChosenWhereMatched }
{}

/// A law: from where and to where the SYN to a server goes, and its numbers, flags and data.
#[tactic(auto, unfolding(crate::specs::Opening::server_syn_segment))]
pub fn server_syn_numbers()
    ensures { ServerSynNumbers }
{}

/// A law: the same of the acknowledgment of the server's SYN and of each piece behind it. There are ten pieces at most;
/// they show what is held from its beginning on, one behind the other, and each has as many bytes as the server takes,
/// the last one perhaps fewer.
pub fn opening_numbers()
    ensures { OpeningNumbers }
{}
