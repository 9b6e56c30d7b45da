ghost use Rattle.std.specs.Prelude.{◌≡◌, IfOk};
ghost use Rattle.rule_text.specs.declared.fault.RuleFault.TheVariants.{Extra, Form, Missing, Range, Twice, UnknownServer};
ghost use Rattle.rule_text.specs.Names.{field_name};
ghost use Rattle.rule_text.specs.Steps.{IsFault};

use crate::name::Name;
use std::alloc::{AllocError, AllocFailed, Global};
use std::fmt;
use std::fmt::{Display, Formatter};

/// Why a text is no rules file.
#[derive(Debug, Drop)]
pub enum RuleFault {
    /// The bytes are no TOML document.
    Syntax,
    /// A field is not there.
    Missing(Name),
    /// A table has a field that it may not have.
    Extra(Name),
    /// A value has another type or form, or an array another number of members.
    Form(Name),
    /// A whole number is outside its limits.
    Range { name: Name, value: i64 },
    /// A server's name, or its address and port, comes a second time, or its address is the service's; or a rule names a
    /// server twice.
    Twice(Name),
    /// A rule names a server that there is not.
    UnknownServer(Name),
    /// The weights of the rule with this number sum to 0.
    ZeroTotal(u16),
    /// There was no memory.
    Memory,
}

/// Its text: what kind it is, the name of the field or of the server, and the number.
impl Display for RuleFault {
    ghost use Rattle.std.specs.Prelude.{Some};
    ghost use Rattle.rule_text.specs.Texts.{fault_text};

    ghost output = { λ f. Some (fault_text f) };

    fn fmt<W: fmt::Write>(&self, f: &mut Formatter<W>) -> fmt::Result {
        match self {
            RuleFault::Syntax => write!(f, "syntax"),
            RuleFault::Missing(name) => write!(f, "missing {name}"),
            RuleFault::Extra(name) => write!(f, "extra {name}"),
            RuleFault::Form(name) => write!(f, "form {name}"),
            RuleFault::Range { name, value } => write!(f, "range {name} {value}"),
            RuleFault::Twice(name) => write!(f, "twice {name}"),
            RuleFault::UnknownServer(name) => write!(f, "unknown server {name}"),
            RuleFault::ZeroTotal(rule) => write!(f, "zero total {rule}"),
            RuleFault::Memory => write!(f, "no memory"),
        }
    }
}

impl<T: Drop> From<AllocFailed<T>> for RuleFault {
    ghost use Rattle.std.specs.Prelude.{◌≡◌};
    ghost use Rattle.rule_text.specs.declared.fault.RuleFault.TheVariants.{Memory};

    ghost from_gives = { λ _ e. e ≡ Memory };

    fn from(_refused: AllocFailed<T>) -> RuleFault {
        RuleFault::Memory
    }
}

impl From<AllocError> for RuleFault {
    ghost use Rattle.std.specs.Prelude.{◌≡◌};
    ghost use Rattle.rule_text.specs.declared.fault.RuleFault.TheVariants.{Memory};

    ghost from_gives = { λ _ e. e ≡ Memory };

    fn from(_refused: AllocError) -> RuleFault {
        RuleFault::Memory
    }
}

/// A table of the file, by its place.
#[derive(Clone, Copy, Debug, PartialEq, Eq)]
pub enum Place {
    Top,
    Service,
    Server(u16),
    Rule(u16),
}

/// A field of a table.
#[derive(Clone, Copy)]
pub struct Field<'a> {
    pub place: Place,
    pub key: &'a str,
}

impl Display for Field<'_> {
    ghost use Rattle.std.specs.Prelude.{Some};
    ghost use Rattle.rule_text.specs.Names.{field_name};

    ghost output = { λ f. Some (field_name f.place f.key.now) };

    #[tactic(auto, unfolding(crate::specs::Names::field_name))]
    fn fmt<W: fmt::Write>(&self, f: &mut Formatter<W>) -> fmt::Result {
        let key = self.key;
        match self.place {
            Place::Top => write!(f, "{key}"),
            Place::Service => write!(f, "service.{key}"),
            Place::Server(n) => write!(f, "server.{n}.{key}"),
            Place::Rule(n) => write!(f, "rule.{n}.{key}"),
        }
    }
}

/// The field's name.
fn name_of(alloc: Global, field: Field) -> Result<Name, AllocError>
    ensures { IfOk result (λ name. name ≡ field_name field.entry.place field.entry.key.now) }
{
    let text = format!(in alloc; "{field}")?;
    Ok(Name::new(text))
}

/// The fault of a field that is not there.
pub fn missing(alloc: Global, field: Field) -> RuleFault
    ensures { IsFault result (Missing (field_name field.entry.place field.entry.key.now)) }
{
    match name_of(alloc, field) {
        Ok(name) => RuleFault::Missing(name),
        Err(_) => RuleFault::Memory,
    }
}

/// The fault of a field that its table may not have.
pub fn extra(alloc: Global, field: Field) -> RuleFault
    ensures { IsFault result (Extra (field_name field.entry.place field.entry.key.now)) }
{
    match name_of(alloc, field) {
        Ok(name) => RuleFault::Extra(name),
        Err(_) => RuleFault::Memory,
    }
}

/// The fault of a value of another type or form.
pub fn form(alloc: Global, field: Field) -> RuleFault
    ensures { IsFault result (Form (field_name field.entry.place field.entry.key.now)) }
{
    match name_of(alloc, field) {
        Ok(name) => RuleFault::Form(name),
        Err(_) => RuleFault::Memory,
    }
}

/// The fault of a whole number outside its limits.
pub fn range(alloc: Global, field: Field, value: i64) -> RuleFault
    ensures { IsFault result (Range (field_name field.entry.place field.entry.key.now) value) }
{
    match name_of(alloc, field) {
        Ok(name) => RuleFault::Range { name, value },
        Err(_) => RuleFault::Memory,
    }
}

/// The fault of what comes a second time.
pub fn twice(alloc: Global, name: &str) -> RuleFault
    ensures { IsFault result (Twice name.now) }
{
    match String::from_str(alloc, name) {
        Ok(text) => RuleFault::Twice(Name::new(text)),
        Err(_) => RuleFault::Memory,
    }
}

/// The fault of a server that there is not.
pub fn unknown_server(alloc: Global, name: &str) -> RuleFault
    ensures { IsFault result (UnknownServer name.now) }
{
    match String::from_str(alloc, name) {
        Ok(text) => RuleFault::UnknownServer(Name::new(text)),
        Err(_) => RuleFault::Memory,
    }
}
