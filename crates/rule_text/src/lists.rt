ghost use Rattle.std.specs.Prelude.{◌≡◌, IfOk, map, vec_len};
ghost use Rattle.std.specs.Option.{option_and_then, option_copied};
ghost use Rattle.toml.specs.Data.{as_integer, as_str, as_table};
ghost use Rattle.toml.specs.View.{table_view, view};
ghost use Rattle.rule_text.specs.Forms.{is_server_name as is_name, kept_if};
ghost use Rattle.rule_text.specs.Names.{field_name};
ghost use Rattle.rule_text.specs.Steps.{Gives, each};
ghost use Rattle.rule_text.specs.Values.{all_of, or_form, whole_within as within_limits};

use crate::fault::{Field, RuleFault, form};
use crate::forms::is_server_name;
use crate::values::whole_within;
use std::alloc::Global;
use toml::value::Array;
use toml::{Table, Value};

/// The tables that all members of the array are.
pub fn tables<'a>(
    alloc: Global,
    field: Field,
    array: &'a Array,
) -> Result<Vec<&'a Table>, RuleFault>
    ensures answer { Gives (λ v. map (λ t. table_view t.now) v.items) result
        (or_form field.entry.place field.entry.key.now (all_of as_table (map view array.now.items))) }
    ensures count { IfOk result (λ v. vec_len v ≡ vec_len array.now) }
{
    let mut tables = Vec::with_capacity(alloc, array.len())?;
    for value in array {
        let Some(table) = value.as_table() else {
            return Err(form(alloc, field));
        };
        tables.push(table)?;
    }
    Ok(tables)
}

/// The whole numbers that all members of the array are.
pub fn integers(alloc: Global, field: Field, array: &Array) -> Result<Vec<i64>, RuleFault>
    ensures { Gives (λ v. v.items) result
        (or_form field.entry.place field.entry.key.now (all_of as_integer (map view array.now.items))) }
{
    let mut numbers = Vec::with_capacity(alloc, array.len())?;
    for value in array {
        let Some(number) = value.as_integer() else {
            return Err(form(alloc, field));
        };
        numbers.push(number)?;
    }
    Ok(numbers)
}

/// The names of servers that all members of the array are.
pub fn names<'a>(alloc: Global, field: Field, array: &'a Array) -> Result<Vec<&'a str>, RuleFault>
    ensures { Gives (λ v. map (λ s. s.now) v.items) result
        (or_form field.entry.place field.entry.key.now (all_of (λ d. option_and_then (kept_if is_name) (as_str d)) (map view array.now.items))) }
{
    let mut names = Vec::with_capacity(alloc, array.len())?;
    for value in array {
        let Some(name) = server_name(value) else {
            return Err(form(alloc, field));
        };
        names.push(name)?;
    }
    Ok(names)
}

/// The name of a server that the value is.
fn server_name(value: &Value) -> Option<&str>
    ensures { option_copied result ≡ option_and_then (kept_if is_name) (as_str (view value.now)) }
{
    let name = value.as_str()?;
    if is_server_name(name.as_bytes()) {
        Some(name)
    } else {
        None
    }
}

/// The weights that these numbers are: the first one outside the limits is the fault.
pub fn weights_within(alloc: Global, field: Field, numbers: &[i64]) -> Result<Vec<u16>, RuleFault>
    ensures { Gives (λ v. v.items) result
        (each (λ k. within_limits (field_name field.entry.place field.entry.key.now) 0 65535) 0 numbers.now) }
{
    let mut weights = Vec::with_capacity(alloc, numbers.len())?;
    for number in numbers {
        weights.push(whole_within(alloc, field, *number, 0, 65535)?)?;
    }
    Ok(weights)
}
