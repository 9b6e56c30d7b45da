ghost use Rattle.std.specs.Prelude.{◌≡◌, ◌==◌, ◌≤◌, [], find, length, not, map, option_map};
ghost use Rattle.std.specs.Option.{option_copied};
ghost use Rattle.toml.specs.View.{table_view};
ghost use Rattle.weighted_pick.specs.Pick.{total_weight};
ghost use Rattle.rule_text.specs.Checks.{clashes as clashes_with, every, first_clash as first_clash_in, is_among as is_among_names, keys_of, known as known_rule, known_keys as known_keys_of, no_extra as no_extra_in, once as once_in, unless_any, weighs as weighs_rule};
ghost use Rattle.rule_text.specs.declared.fault.RuleFault.TheVariants.{Twice};
ghost use Rattle.rule_text.specs.Steps.{Gives};
ghost use Rattle.rule_text.specs.Document.{names_of};
ghost use Rattle.rule_text.specs.WrittenViews.{named, written};

use crate::fault::{Field, Place, RuleFault, extra, twice, unknown_server};
use crate::written::{NamedServer, WrittenRule};
use rule_table::{Rule, Service};
use std::alloc::Global;
use toml::Table;

/// That the table has no field that it may not have: the first in byte order is the fault.
#[tactic(auto, unfolding(crate::specs::Checks::no_extra))]
pub fn no_extra(alloc: Global, place: Place, table: &Table) -> Result<(), RuleFault>
    ensures { Gives (λ u. u) result (no_extra_in place (table_view table.now)) }
{
    match first_extra(known_keys(place), table) {
        Some(key) => Err(extra(alloc, Field { place, key })),
        None => Ok(()),
    }
}

/// The fields that a table may have.
fn known_keys(place: Place) -> &'static [&'static str]
    ensures { map (λ k. k.now) result.now ≡ known_keys_of place }
{
    match place {
        Place::Top => &[
            "instances",
            "replicas",
            "copies",
            "shards",
            "secret",
            "service",
            "server",
            "rule",
        ],
        Place::Service => &["number", "address", "port"],
        Place::Server(_) => &["name", "address", "port"],
        Place::Rule(_) => &["to", "weights", "host", "path", "cookie"],
    }
}

/// The first key of the table, in byte order, that is not known.
fn first_extra<'a>(known: &[&str], table: &'a Table) -> Option<&'a str>
    ensures { option_copied result ≡ find (λ k. not (is_among_names (map (λ n. n.now) known.now) k)) (keys_of (table_view table.now)) }
{
    for key in table.keys() {
        if !is_among(known, key.as_str()) {
            return Some(key.as_str());
        }
    }
    None
}

/// Whether the name is one of these.
fn is_among(names: &[&str], name: &str) -> bool
    ensures { result ≡ is_among_names (map (λ n. n.now) names.now) name.now }
{
    for n in names {
        if *n == name {
            return true;
        }
    }
    false
}

/// That no server's table has a field that it may not have.
pub fn no_server_extra(alloc: Global, tables: &[&Table]) -> Result<(), RuleFault>
    requires { length tables.now ≤ 256 }
    ensures { Gives (λ u. u) result (every (λ n. no_extra_in (Place.Server n)) 0 (map (λ t. table_view t.now) tables.now)) }
{
    for (n, table) in tables.iter().enumerate() {
        no_extra(alloc, Place::Server(n as u16), table)?;
    }
    Ok(())
}

/// That no rule's table has a field that it may not have.
pub fn no_rule_extra(alloc: Global, tables: &[&Table]) -> Result<(), RuleFault>
    requires { length tables.now ≤ 256 }
    ensures { Gives (λ u. u) result (every (λ n. no_extra_in (Place.Rule n)) 0 (map (λ t. table_view t.now) tables.now)) }
{
    for (n, table) in tables.iter().enumerate() {
        no_extra(alloc, Place::Rule(n as u16), table)?;
    }
    Ok(())
}

/// That no server has the name, or the address and port, of one before it, or the service's address.
pub fn apart(alloc: Global, service: Service, servers: &[NamedServer]) -> Result<(), RuleFault>
    ensures { Gives (λ u. u) result (unless_any (λ s. Twice s.0) (first_clash_in (clashes_with service) [] (map named servers.now))) }
{
    match first_clash(service, servers) {
        Some(server) => Err(twice(alloc, server.name)),
        None => Ok(()),
    }
}

/// The first server that may not come after those before it.
fn first_clash<'a>(service: Service, servers: &[NamedServer<'a>]) -> Option<NamedServer<'a>>
    ensures { option_map named result ≡ first_clash_in (clashes_with service) [] (map named servers.now) }
{
    for (n, server) in servers.iter().enumerate() {
        if clashes(service, &servers[..n], server) {
            return Some(*server);
        }
    }
    None
}

/// Whether the server may not come after these.
fn clashes(service: Service, earlier: &[NamedServer], server: &NamedServer) -> bool
    ensures { result ≡ clashes_with service (map named earlier.now) (named server.now) }
{
    for other in earlier {
        if other.name == server.name || other.server == server.server {
            return true;
        }
    }
    server.server.address == service.address
}

/// That each name of the rules is a server's.
pub fn all_known(
    alloc: Global,
    servers: &[NamedServer],
    rules: &[WrittenRule],
) -> Result<(), RuleFault>
    ensures { Gives (λ u. u) result (every (λ n. known_rule (names_of (map named servers.now))) 0 (map written rules.now)) }
{
    for rule in rules {
        known(alloc, servers, rule)?;
    }
    Ok(())
}

/// That each name of a rule is a server's.
#[tactic(auto, unfolding(crate::specs::WrittenViews::written))]
fn known(alloc: Global, servers: &[NamedServer], rule: &WrittenRule) -> Result<(), RuleFault>
    ensures { Gives (λ u. u) result (known_rule (names_of (map named servers.now)) (written rule.now)) }
{
    match first_unknown(servers, &rule.to) {
        Some(name) => Err(unknown_server(alloc, name)),
        None => Ok(()),
    }
}

/// The first name that no server has.
fn first_unknown<'a>(servers: &[NamedServer], names: &[&'a str]) -> Option<&'a str>
    ensures { option_copied result
        ≡ find (λ n. not (is_among_names (names_of (map named servers.now)) n)) (map (λ n. n.now) names.now) }
{
    for name in names {
        if !is_server(servers, name) {
            return Some(name);
        }
    }
    None
}

/// Whether a server has the name.
fn is_server(servers: &[NamedServer], name: &str) -> bool
    ensures { result ≡ is_among_names (names_of (map named servers.now)) name.now }
{
    for server in servers {
        if server.name == name {
            return true;
        }
    }
    false
}

/// That each rule names a server once.
pub fn all_once(alloc: Global, rules: &[WrittenRule]) -> Result<(), RuleFault>
    ensures { Gives (λ u. u) result (every (λ n. once_in) 0 (map written rules.now)) }
{
    for rule in rules {
        once(alloc, rule)?;
    }
    Ok(())
}

/// That the rule names each server once.
#[tactic(auto, unfolding(crate::specs::WrittenViews::written))]
fn once(alloc: Global, rule: &WrittenRule) -> Result<(), RuleFault>
    ensures { Gives (λ u. u) result (once_in (written rule.now)) }
{
    match first_again(&rule.to) {
        Some(name) => Err(twice(alloc, name)),
        None => Ok(()),
    }
}

/// The first name that stands among those before it.
fn first_again<'a>(names: &[&'a str]) -> Option<&'a str>
    ensures { option_copied result ≡ first_clash_in is_among_names [] (map (λ n. n.now) names.now) }
{
    for (n, name) in names.iter().enumerate() {
        if is_among(&names[..n], name) {
            return Some(name);
        }
    }
    None
}

/// That the weights of no rule sum to 0.
pub fn all_weigh(rules: &[Rule]) -> Result<(), RuleFault>
    requires { length rules.now ≤ 256 }
    ensures { result ≡ every weighs_rule 0 rules.now }
{
    for (n, rule) in rules.iter().enumerate() {
        if !has_weight(rule.to.as_slice()) {
            return Err(RuleFault::ZeroTotal(n as u16));
        }
    }
    Ok(())
}

/// Whether one of the weights is above 0.
fn has_weight(choices: &[(u16, u16)]) -> bool
    ensures { result ≡ not (total_weight choices.now == 0) }
{
    for (_, weight) in choices {
        if *weight > 0 {
            return true;
        }
    }
    false
}
