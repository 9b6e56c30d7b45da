ghost use Rattle.std.specs.Prelude.{◌≡◌};
ghost use Rattle.script_text.specs.declared.fault.ScriptFault.TheVariants.{Memory};

use std::alloc::AllocError;

/// Why a text is no script, with the number of the line, from 1, at which it is none.
#[derive(Clone, Copy, Debug, PartialEq, Eq)]
pub enum ScriptFault {
    /// The line has none of the four forms.
    Form(u32),
    /// A number of the line is out of its range.
    Range(u32),
    /// The line is a second `give` of one record or a second `fail` of one replica.
    Twice(u32),
    /// The line is a `crash` or `back` that may not follow the one before it of its instance.
    Order(u32),
    /// Want of memory.
    Memory,
}

impl From<AllocError> for ScriptFault {
    ghost from_gives = { λ _ e. e ≡ Memory };

    fn from(_: AllocError) -> Self {
        ScriptFault::Memory
    }
}
