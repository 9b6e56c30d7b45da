ghost use Rattle.flow_close.specs.Closing.{ResetNumbers, TurnedNumbers};

/// A law: which segments are answered by a reset, from where and to where it goes, and its number, flags and data.
#[tactic(auto, unfolding(crate::specs::Closing::reset_back))]
pub fn reset_numbers()
    ensures { ResetNumbers }
{}

/// A law: the same of the reset of a client that is turned away.
#[tactic(auto, unfolding(crate::specs::Closing::turned_segment))]
pub fn turned_numbers()
    ensures { TurnedNumbers }
{}
