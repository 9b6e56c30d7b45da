ghost use Rattle.rule_text.specs.Laws.{NeverMemory, SaysSetups};

/// What the bytes of a rules file say is a setup, of which all holds that holds of every setup, or a fault other than want
/// of memory.
pub fn rules_say()
    ensures setups { SaysSetups }
    ensures faults { NeverMemory }
{}
