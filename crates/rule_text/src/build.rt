ghost use Rattle.std.specs.Prelude.{◌≡◌, ◌≤◌, IfOk, length, map, option_map, vec_len};
ghost use Rattle.std.specs.List.{zip};
ghost use Rattle.rule_text.specs.Document.{names_of, place_among, resolved as resolved_rule, resolved_rules as resolved_in};
ghost use Rattle.rule_text.specs.WrittenViews.{named, written};

use crate::written::{NamedServer, WrittenRule};
use rule_table::{Choices, Rule, Server, Text};
use std::alloc::{AllocError, Global};

/// The servers without their names.
pub fn ends_of(alloc: Global, servers: &[NamedServer]) -> Result<Vec<Server>, AllocError>
    ensures { IfOk result (λ v. v.items ≡ map (λ s. s.1) (map named servers.now)) }
{
    let mut ends = Vec::with_capacity(alloc, servers.len())?;
    for server in servers {
        ends.push(server.server)?;
    }
    Ok(ends)
}

/// The rules, with their servers by their places.
pub fn resolved_rules(
    alloc: Global,
    servers: &[NamedServer],
    rules: &[WrittenRule],
) -> Result<Vec<Rule>, AllocError>
    requires { length servers.now ≤ 256 }
    ensures rules { IfOk result (λ v. v.items ≡ resolved_in (map named servers.now) (map written rules.now)) }
    ensures count { IfOk result (λ v. vec_len v ≡ length rules.now) }
{
    let mut resolved = Vec::with_capacity(alloc, rules.len())?;
    for rule in rules {
        resolved.push(resolved_of(alloc, servers, rule)?)?;
    }
    Ok(resolved)
}

/// The rule, with its servers by their places.
#[tactic(auto, unfolding(crate::specs::WrittenViews::written))]
fn resolved_of(
    alloc: Global,
    servers: &[NamedServer],
    rule: &WrittenRule,
) -> Result<Rule, AllocError>
    requires { length servers.now ≤ 256 }
    ensures { IfOk result (λ r. r ≡ resolved_rule (names_of (map named servers.now)) (written rule.now)) }
{
    Ok(Rule {
        host: text_of(alloc, rule.host)?,
        path: text_of(alloc, rule.path)?,
        cookie: text_of(alloc, rule.cookie)?,
        to: choices_of(alloc, servers, &rule.to, &rule.weights)?,
    })
}

/// The text of a condition.
fn text_of(alloc: Global, condition: Option<&str>) -> Result<Option<Text>, AllocError>
    ensures { IfOk result (λ t. t ≡ option_map (λ s. s.now) condition.entry) }
{
    let Some(text) = condition else {
        return Ok(None);
    };
    let bytes = Vec::from_slice(alloc, text.as_bytes())?;
    Ok(Some(Text::new(bytes)))
}

/// The servers that a rule names, by their places, with their weights.
fn choices_of(
    alloc: Global,
    servers: &[NamedServer],
    to: &[&str],
    weights: &[u16],
) -> Result<Choices, AllocError>
    requires { length servers.now ≤ 256 }
    ensures { IfOk result (λ c. c ≡ zip (map (place_among (names_of (map named servers.now))) (map (λ s. s.now) to.now)) weights.now) }
{
    let mut pairs = Vec::with_capacity(alloc, to.len())?;
    for (n, name) in to.iter().enumerate() {
        let Some(weight) = weights.get(n) else {
            break;
        };
        pairs.push((place_of(servers, name), *weight))?;
    }
    Ok(Choices::new(pairs))
}

/// The place of the server with the name, or the number of servers where none has it.
fn place_of(servers: &[NamedServer], name: &str) -> u16
    requires { length servers.now ≤ 256 }
    ensures { result ≡ place_among (names_of (map named servers.now)) name.now }
{
    for (n, server) in servers.iter().enumerate() {
        if server.name == name {
            return n as u16;
        }
    }
    servers.len() as u16
}
