ghost use Rattle.std.specs.Prelude.{◌≡◌, ◌≤◌, IfOk, codes, length, map, option_map, vec_len};
ghost use Rattle.toml.specs.View.{table_view};
ghost use Rattle.std.specs.Option.{option_and_then};
ghost use Rattle.toml.specs.Data.{as_integer, as_str, as_table};
ghost use Rattle.rule_table.specs.Setups.{is_shard_count as is_shard_number};
ghost use Rattle.rule_text.specs.declared.fault.Place.TheVariants.{Top};
ghost use Rattle.rule_text.specs.Conditions.{allows, key_of};
ghost use Rattle.rule_text.specs.Forms.{address_of as address_in, is_server_name as is_name, kept_if, secret_of as secret_in};
ghost use Rattle.rule_text.specs.Steps.{Gives, each};
ghost use Rattle.rule_text.specs.Values.{array_at as array_in, text_at as text_in, whole_at as whole_in};
ghost use Rattle.rule_text.specs.Written.{condition_at as condition_in, rule_of as rule_in, server_of as server_in, service_of as service_in, shards_of as shards_in, sizes_of as sizes_in, weights_at as weights_in};
ghost use Rattle.rule_text.specs.WrittenViews.{named, written};

use crate::fault::{Field, Place, RuleFault, form, range};
use crate::forms::{Condition, address_of, is_server_name, secret_of};
use crate::lists::{integers, names, tables, weights_within};
use crate::values::{array_at, member, text, text_at, whole_at};
use rule_table::{Server, Service, Sizes};
use std::alloc::Global;
use toml::Table;

/// A field of the top table.
pub fn top(key: &str) -> Field<'_>
    ensures place { result.place ≡ Top }
    ensures key { result.key.now ≡ key.now }
{
    Field {
        place: Place::Top,
        key,
    }
}

/// The sizes, and the secret.
#[tactic(auto, unfolding(crate::specs::Written::sizes_of))]
pub fn sizes_of(alloc: Global, document: &Table) -> Result<Sizes, RuleFault>
    ensures { Gives (λ s. s) result (sizes_in (table_view document.now)) }
{
    let instances = whole_at(alloc, document, top("instances"), 1, 16)?;
    let replicas = whole_at(alloc, document, top("replicas"), 1, 8)?;
    let copies = whole_at(alloc, document, top("copies"), 1, replicas)?;
    let shards = shards_of(alloc, document)?;
    let secret = secret_at(alloc, document)?;
    Ok(Sizes {
        instances,
        replicas: replicas as u8,
        copies: copies as u8,
        shards,
        secret,
    })
}

/// The number of shards, a power of two up to 64.
#[tactic(auto, unfolding(crate::specs::Written::shards_of))]
fn shards_of(alloc: Global, document: &Table) -> Result<u8, RuleFault>
    ensures { Gives (λ n. n) result (shards_in (table_view document.now)) }
{
    let number = whole_at(alloc, document, top("shards"), 1, 64)?;
    if is_shard_count(number) {
        Ok(number as u8)
    } else {
        Err(range(alloc, top("shards"), number as i64))
    }
}

/// Whether there may be so many shards.
fn is_shard_count(number: u16) -> bool
    ensures { result ≡ is_shard_number number }
{
    matches!(number, 1 | 2 | 4 | 8 | 16 | 32 | 64)
}

/// The secret of 64 hex digits.
#[tactic(auto, unfolding(crate::specs::Values::text_at))]
fn secret_at(alloc: Global, document: &Table) -> Result<[u8; 32], RuleFault>
    ensures { Gives (λ s. s) result (text_in secret_in Top (codes "secret") (table_view document.now)) }
{
    let text = text_at(alloc, document, top("secret"))?;
    match secret_of(text) {
        Some(secret) => Ok(secret),
        None => Err(form(alloc, top("secret"))),
    }
}

/// The service.
#[tactic(auto, unfolding(crate::specs::Written::service_of))]
pub fn service_of(alloc: Global, table: &Table) -> Result<Service, RuleFault>
    ensures { Gives (λ s. s) result (service_in (table_view table.now)) }
{
    let field = Field {
        place: Place::Service,
        key: "number",
    };
    let number = whole_at(alloc, table, field, 0, 65535)?;
    let address = address_at(alloc, table, Place::Service)?;
    let port = port_at(alloc, table, Place::Service)?;
    Ok(Service {
        number,
        address,
        port,
    })
}

/// The IPv4 address of a table.
#[tactic(auto, unfolding(crate::specs::Values::text_at))]
fn address_at(alloc: Global, table: &Table, place: Place) -> Result<u32, RuleFault>
    ensures { Gives (λ n. n) result (text_in address_in place (codes "address") (table_view table.now)) }
{
    let field = Field {
        place,
        key: "address",
    };
    let text = text_at(alloc, table, field)?;
    match address_of(text) {
        Some(address) => Ok(address),
        None => Err(form(alloc, field)),
    }
}

/// The TCP port of a table.
fn port_at(alloc: Global, table: &Table, place: Place) -> Result<u16, RuleFault>
    ensures { Gives (λ n. n) result (whole_in place (codes "port") 1 65535 (table_view table.now)) }
{
    whole_at(alloc, table, Field { place, key: "port" }, 1, 65535)
}

/// A server with the name that rules give it.
#[derive(Clone, Copy)]
pub struct NamedServer<'a> {
    pub name: &'a str,
    pub server: Server,
}

/// The server of the table at place `n`.
#[tactic(auto, unfolding(crate::specs::Written::server_of))]
pub fn server_of(alloc: Global, n: u16, table: &Table) -> Result<NamedServer<'_>, RuleFault>
    ensures { Gives (λ s. (s.name.now, s.server)) result (server_in n (table_view table.now)) }
{
    let name = name_at(alloc, table, Place::Server(n))?;
    let address = address_at(alloc, table, Place::Server(n))?;
    let port = port_at(alloc, table, Place::Server(n))?;
    Ok(NamedServer {
        name,
        server: Server { address, port },
    })
}

/// The name of a server's table.
#[tactic(auto, unfolding(crate::specs::Values::text_at))]
fn name_at(alloc: Global, table: &Table, place: Place) -> Result<&str, RuleFault>
    ensures { Gives (λ s. s.now) result (text_in (kept_if is_name) place (codes "name") (table_view table.now)) }
{
    let field = Field { place, key: "name" };
    let name = text_at(alloc, table, field)?;
    if is_server_name(name.as_bytes()) {
        Ok(name)
    } else {
        Err(form(alloc, field))
    }
}

/// A rule as it is written.
#[derive(Drop)]
pub struct WrittenRule<'a> {
    pub to: Vec<&'a str>,
    pub weights: Vec<u16>,
    pub host: Option<&'a str>,
    pub path: Option<&'a str>,
    pub cookie: Option<&'a str>,
}

/// The rule of the table at place `n`.
#[tactic(auto, unfolding(crate::specs::Written::rule_of, crate::specs::WrittenViews::written))]
pub fn rule_of(alloc: Global, n: u16, table: &Table) -> Result<WrittenRule<'_>, RuleFault>
    ensures { Gives written result (rule_in n (table_view table.now)) }
{
    let place = Place::Rule(n);
    let to = to_at(alloc, table, place)?;
    let weights = weights_at(alloc, table, place, to.len())?;
    let host = condition_at(alloc, table, place, Condition::Host)?;
    let path = condition_at(alloc, table, place, Condition::Path)?;
    let cookie = condition_at(alloc, table, place, Condition::Cookie)?;
    Ok(WrittenRule {
        to,
        weights,
        host,
        path,
        cookie,
    })
}

/// The names of the servers that a rule names.
#[tactic(auto, unfolding(crate::specs::Values::array_at))]
fn to_at(alloc: Global, table: &Table, place: Place) -> Result<Vec<&str>, RuleFault>
    ensures { Gives (λ v. map (λ s. s.now) v.items) result
        (array_in (λ d. option_and_then (kept_if is_name) (as_str d)) 1 256 place (codes "to") (table_view table.now)) }
{
    let field = Field { place, key: "to" };
    let array = array_at(alloc, table, field, 1, 256)?;
    names(alloc, field, array)
}

/// The weights of a rule, as many as its servers.
#[tactic(auto, unfolding(crate::specs::Written::weights_at, crate::specs::Values::array_at))]
fn weights_at(
    alloc: Global,
    table: &Table,
    place: Place,
    count: usize,
) -> Result<Vec<u16>, RuleFault>
    ensures { Gives (λ v. v.items) result (weights_in place count (table_view table.now)) }
{
    let field = Field {
        place,
        key: "weights",
    };
    let array = array_at(alloc, table, field, count, count)?;
    let numbers = integers(alloc, field, array)?;
    weights_within(alloc, field, &numbers)
}

/// The condition of a rule, if it is there.
#[tactic(auto, unfolding(crate::specs::Written::condition_at, crate::specs::Values::text_at))]
fn condition_at(
    alloc: Global,
    table: &Table,
    place: Place,
    condition: Condition,
) -> Result<Option<&str>, RuleFault>
    ensures { Gives (option_map (λ s. s.now)) result
        (condition_in (allows condition) place (key_of condition) (table_view table.now)) }
{
    let field = Field {
        place,
        key: condition.key(),
    };
    let Some(value) = member(table, field.key) else {
        return Ok(None);
    };
    let text = text(alloc, field, value)?;
    if condition.allows(text.as_bytes()) {
        Ok(Some(text))
    } else {
        Err(form(alloc, field))
    }
}

/// The tables of an array, from 1 to 256.
#[tactic(auto, unfolding(crate::specs::Values::array_at))]
pub fn tables_at<'a>(
    alloc: Global,
    document: &'a Table,
    key: &str,
) -> Result<Vec<&'a Table>, RuleFault>
    ensures answer { Gives (λ v. map (λ t. table_view t.now) v.items) result
        (array_in as_table 1 256 Top key.now (table_view document.now)) }
    ensures few { IfOk result (λ v. vec_len v ≤ 256) }
{
    let array = array_at(alloc, document, top(key), 1, 256)?;
    tables(alloc, top(key), array)
}

/// The servers of the tables, in order.
pub fn server_list<'a>(
    alloc: Global,
    tables: &[&'a Table],
) -> Result<Vec<NamedServer<'a>>, RuleFault>
    requires { length tables.now ≤ 256 }
    ensures answer { Gives (λ v. map named v.items) result (each server_in 0 (map (λ t. table_view t.now) tables.now)) }
    ensures few { IfOk result (λ v. vec_len v ≤ 256) }
{
    let mut servers = Vec::with_capacity(alloc, tables.len())?;
    for (n, table) in tables.iter().enumerate() {
        servers.push(server_of(alloc, n as u16, table)?)?;
    }
    Ok(servers)
}

/// The rules of the tables, in order.
pub fn rule_list<'a>(alloc: Global, tables: &[&'a Table]) -> Result<Vec<WrittenRule<'a>>, RuleFault>
    requires { length tables.now ≤ 256 }
    ensures answer { Gives (λ v. map written v.items) result (each rule_in 0 (map (λ t. table_view t.now) tables.now)) }
    ensures few { IfOk result (λ v. vec_len v ≤ 256) }
{
    let mut rules = Vec::with_capacity(alloc, tables.len())?;
    for (n, table) in tables.iter().enumerate() {
        rules.push(rule_of(alloc, n as u16, table)?)?;
    }
    Ok(rules)
}
