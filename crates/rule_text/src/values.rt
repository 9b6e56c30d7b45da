ghost use Rattle.std.specs.Prelude.{◌≡◌, ◌≤◌, ◌&&◌, IfOk, IsTrue, nat_le, vec_len, length, map, option_map};
ghost use Rattle.std.specs.Option.{ok_or};
ghost use Rattle.toml.specs.Data.{as_array, as_integer, as_str, as_table, get_member};
ghost use Rattle.toml.specs.View.{table_view, view};
ghost use Rattle.rule_text.specs.Names.{field_name};
ghost use Rattle.rule_text.specs.Steps.{Gives};
ghost use Rattle.rule_text.specs.declared.fault.RuleFault.TheVariants.{Missing};
ghost use Rattle.rule_text.specs.Values.{field_at, list_of, list_within, or_form, whole_at as whole_number_at, whole_within as within_limits};

use crate::fault::{Field, RuleFault, form, missing, range};
use std::alloc::Global;
use toml::value::Array;
use toml::{Table, Value};

/// The value that the table has under the key.
pub fn member<'a>(table: &'a Table, key: &str) -> Option<&'a Value>
    ensures { option_map (λ v. view v.now) result ≡ get_member key.now (table_view table.now) }
{
    table.get(key)
}

/// The value of a field that has to be there.
pub fn value_at<'a>(alloc: Global, table: &'a Table, field: Field) -> Result<&'a Value, RuleFault>
    ensures { Gives (λ v. view v.now) result
        (ok_or (get_member field.entry.key.now (table_view table.now)) (Missing (field_name field.entry.place field.entry.key.now))) }
{
    match member(table, field.key) {
        Some(value) => Ok(value),
        None => Err(missing(alloc, field)),
    }
}

/// The whole number of a field, from the low limit to the high one.
#[tactic(auto, unfolding(crate::specs::Values::whole_at))]
pub fn whole_at(
    alloc: Global,
    table: &Table,
    field: Field,
    low: u16,
    high: u16,
) -> Result<u16, RuleFault>
    ensures answer { Gives (λ n. n) result
        (whole_number_at field.entry.place field.entry.key.now low high (table_view table.now)) }
    ensures within { IfOk result (λ n. (low ≤ n) × (n ≤ high)) }
{
    let value = value_at(alloc, table, field)?;
    let number = integer(alloc, field, value)?;
    whole_within(alloc, field, number, low, high)
}

/// The whole number that the value of a field is.
fn integer(alloc: Global, field: Field, value: &Value) -> Result<i64, RuleFault>
    ensures { Gives (λ z. z) result (or_form field.entry.place field.entry.key.now (as_integer (view value.now))) }
{
    match value.as_integer() {
        Some(number) => Ok(number),
        None => Err(form(alloc, field)),
    }
}

/// The number, where it is not outside the limits.
pub fn whole_within(
    alloc: Global,
    field: Field,
    number: i64,
    low: u16,
    high: u16,
) -> Result<u16, RuleFault>
    ensures answer { Gives (λ n. n) result (within_limits (field_name field.entry.place field.entry.key.now) low high number) }
    ensures within { IfOk result (λ n. (low ≤ n) × (n ≤ high)) }
{
    if number < low as i64 || number > high as i64 {
        return Err(range(alloc, field, number));
    }
    Ok(number as u16)
}

/// The text of a field.
pub fn text_at<'a>(alloc: Global, table: &'a Table, field: Field) -> Result<&'a str, RuleFault>
    ensures { Gives (λ s. s.now) result (field_at as_str field.entry.place field.entry.key.now (table_view table.now)) }
{
    let value = value_at(alloc, table, field)?;
    text(alloc, field, value)
}

/// The text that the value of a field is.
pub fn text<'a>(alloc: Global, field: Field, value: &'a Value) -> Result<&'a str, RuleFault>
    ensures { Gives (λ s. s.now) result (or_form field.entry.place field.entry.key.now (as_str (view value.now))) }
{
    match value.as_str() {
        Some(text) => Ok(text),
        None => Err(form(alloc, field)),
    }
}

/// The table of a field.
pub fn table_at<'a>(alloc: Global, table: &'a Table, field: Field) -> Result<&'a Table, RuleFault>
    ensures { Gives (λ t. table_view t.now) result (field_at as_table field.entry.place field.entry.key.now (table_view table.now)) }
{
    let value = value_at(alloc, table, field)?;
    members_of(alloc, field, value)
}

/// The table that the value of a field is.
fn members_of<'a>(alloc: Global, field: Field, value: &'a Value) -> Result<&'a Table, RuleFault>
    ensures { Gives (λ t. table_view t.now) result (or_form field.entry.place field.entry.key.now (as_table (view value.now))) }
{
    match value.as_table() {
        Some(table) => Ok(table),
        None => Err(form(alloc, field)),
    }
}

/// The array of a field, with a number of members between the limits.
pub fn array_at<'a>(
    alloc: Global,
    table: &'a Table,
    field: Field,
    low: usize,
    high: usize,
) -> Result<&'a Array, RuleFault>
    ensures answer { Gives (λ a. map view a.now.items) result
        (field_at (list_within low high) field.entry.place field.entry.key.now (table_view table.now)) }
    ensures few { IfOk result (λ a. vec_len a.now ≤ high) }
{
    let value = value_at(alloc, table, field)?;
    items_of(alloc, field, value, low, high)
}

/// The array that the value of a field is.
fn items_of<'a>(
    alloc: Global,
    field: Field,
    value: &'a Value,
    low: usize,
    high: usize,
) -> Result<&'a Array, RuleFault>
    ensures answer { Gives (λ a. map view a.now.items) result
        (or_form field.entry.place field.entry.key.now (list_within low high (view value.now))) }
    ensures few { IfOk result (λ a. vec_len a.now ≤ high) }
{
    let Some(array) = array_of(value) else {
        return Err(form(alloc, field));
    };
    if has_length(array, low, high) {
        Ok(array)
    } else {
        Err(form(alloc, field))
    }
}

/// The array that the value is, if it is one.
fn array_of(value: &Value) -> Option<&Array>
    ensures { option_map (λ a. map view a.now.items) result ≡ option_map list_of (as_array (view value.now)) }
{
    value.as_array()
}

/// Whether the array has a number of members between the limits.
fn has_length(array: &Array, low: usize, high: usize) -> bool
    ensures test { result ≡ (nat_le low (length (map view array.now.items)) && nat_le (length (map view array.now.items)) high) }
    ensures few { IsTrue result → vec_len array.now ≤ high }
{
    low <= array.len() && array.len() <= high
}
