ghost use Rattle.std.specs.Prelude.{◌≡◌, ◌==◌, ◌≤◌, ◌+◌, ◌&&◌, ℕ, List, drop, length, option_map, position};
ghost use Rattle.std.specs.List.{before_first};
ghost use Rattle.weighted_pick.specs.Pick.{has_weight as has_weight_in};
ghost use Rattle.http_head.specs.Parts.{IsHeadOf, IsWithin, part_bytes};
ghost use Rattle.http_head.specs.Fields.{host_of as host_in, target_of};
ghost use Rattle.http_head.specs.Reading.{reading};
ghost use Rattle.rule_table.specs.Forms.{question};
ghost use Rattle.rule_table.specs.Found.{AreCookiesOf, IsAskedOf, is_named};
ghost use Rattle.rule_table.specs.Matching.{applies as applies_to, gives_weight as gives_weight_in, matched_in, meets_cookie as meets_cookie_of, meets_host as meets_host_of, meets_path as meets_path_of, place_of, value_names_host};

use crate::cookies::Cookies;
use crate::types::{Rule, Server, Text};
use http_head::{HttpHead, Part};

/// What conditions are compared with, cut from the head once for all rules.
#[derive(Clone, Copy)]
struct Asked<'a> {
    /// The Host value up to its first colon, None where there is none or where it is an IPv6 address.
    host: Option<&'a [u8]>,
    /// The target up to its query.
    path: &'a [u8],
}

/// The number of the first of the rules that the head matches, None exactly where it matches none. The head's cookies are
/// gone through for the first rule that turns on one.
#[tactic(auto, unfolding(crate::specs::Matching::matched_in))]
pub fn first_match(rules: &[Rule], bytes: &[u8], head: &HttpHead) -> Option<u16>
    requires few { length rules.now ≤ 256 }
    requires head { IsHeadOf bytes.now head.now }
    ensures { result ≡ matched_in rules.now (reading bytes.now) }
{
    let asked = Asked {
        host: host_of(bytes, head),
        path: path_of(bytes, head),
    };
    for (number, rule) in rules.iter().enumerate() {
        if meets_asked(rule, bytes, asked) {
            return match rule.cookie {
                None => Some(number as u16),
                Some(_) => first_from(rules, number, bytes, head, asked),
            };
        }
    }
    None
}

/// The same where the head matches none of the rules before this one.
fn first_from(
    rules: &[Rule],
    first: usize,
    bytes: &[u8],
    head: &HttpHead,
    asked: Asked<'_>,
) -> Option<u16>
    requires few { length rules.now ≤ 256 }
    requires head { IsHeadOf bytes.now head.now }
    requires asked { IsAskedOf (reading bytes.now) asked }
    requires before { position (applies_to (reading bytes.now)) rules.now
        ≡ option_map (λ n. first + n) (position (applies_to (reading bytes.now)) (drop first rules.now)) }
    ensures { result ≡ position (applies_to (reading bytes.now)) rules.now }
{
    let cookies = Cookies::of(rules, bytes, head);
    let mut number = first;
    while let Some(rule) = rules.get(number) {
        if meets_asked(rule, bytes, asked) && meets_cookie(rules, &rule.cookie, bytes, &cookies) {
            return Some(number as u16);
        }
        number += 1;
    }
    None
}

/// Whether the rule with that number, if there is one, gives the server a weight above 0.
pub fn gives_weight(rules: &[Rule], server: u16, number: Option<u16>) -> bool
    ensures { result ≡ gives_weight_in rules.now server number }
{
    let Some(number) = number else {
        return false;
    };
    match rules.get(number as usize) {
        Some(rule) => has_weight(rule.to.as_slice(), server),
        None => false,
    }
}

/// Whether the server is given a weight above 0.
fn has_weight(choices: &[(u16, u16)], server: u16) -> bool
    ensures { result ≡ has_weight_in choices.now server }
{
    choices
        .iter()
        .any(|choice| choice.0 == server && 0 < choice.1)
}

/// The index of the server with that address and port.
pub fn server_in(servers: &[Server], address: u32, port: u16) -> Option<u16>
    requires { length servers.now ≤ 256 }
    ensures { result ≡ place_of servers.now address port }
{
    for (index, server) in servers.iter().enumerate() {
        if server.address == address && server.port == port {
            return Some(index as u16);
        }
    }
    None
}

/// Whether the conditions on host and path hold.
fn meets_asked(rule: &Rule, bytes: &[u8], asked: Asked<'_>) -> bool
    requires { IsAskedOf (reading bytes.now) asked }
    ensures { result ≡ (meets_host_of rule.now.host (reading bytes.now) && meets_path_of rule.now.path (reading bytes.now)) }
{
    meets_host(&rule.host, bytes, asked) && meets_path(&rule.path, bytes, asked)
}

/// Whether the host condition holds, if there is one.
fn meets_host(condition: &Option<Text>, bytes: &[u8], asked: Asked<'_>) -> bool
    requires { IsAskedOf (reading bytes.now) asked }
    ensures { result ≡ meets_host_of condition.now (reading bytes.now) }
{
    let _ = bytes;
    match (condition, asked.host) {
        (None, _) => true,
        (Some(_), None) => false,
        (Some(host), Some(name)) => name.eq_ignore_ascii_case(host.as_slice()),
    }
}

/// Whether the path condition holds, if there is one.
fn meets_path(condition: &Option<Text>, bytes: &[u8], asked: Asked<'_>) -> bool
    requires { IsAskedOf (reading bytes.now) asked }
    ensures { result ≡ meets_path_of condition.now (reading bytes.now) }
{
    let _ = bytes;
    match condition {
        None => true,
        Some(path) => asked.path.starts_with(path.as_slice()),
    }
}

/// Whether the cookie condition holds, if there is one.
fn meets_cookie(rules: &[Rule], condition: &Option<Text>, bytes: &[u8], cookies: &Cookies) -> bool
    requires few { length rules.now ≤ 256 }
    requires cookies { AreCookiesOf rules.now bytes.now cookies.now }
    ensures { result ≡ meets_cookie_of condition.now (reading bytes.now) }
{
    match condition {
        None => true,
        Some(cookie) => cookies.has(rules, bytes, cookie),
    }
}

/// The Host value up to its first colon. None where there is none, or where it begins with `[` and is an IPv6 address.
fn host_of<'a>(bytes: &'a [u8], head: &HttpHead) -> Option<&'a [u8]>
    requires { IsHeadOf bytes.now head.now }
    ensures { (host : List ℕ) → value_names_host host (host_in (reading bytes.now)) ≡ is_named host result }
{
    let value = part(bytes, head.host?);
    if matches!(value, [b'[', ..]) {
        return None;
    }
    Some(before(value, b':'))
}

/// The target up to its query.
fn path_of<'a>(bytes: &'a [u8], head: &HttpHead) -> &'a [u8]
    requires { IsHeadOf bytes.now head.now }
    ensures { result.now ≡ before_first (λ b. b == question) (target_of (reading bytes.now)) }
{
    before(part(bytes, head.path), b'?')
}

/// What stands before the first such byte, or all where there is none.
fn before(bytes: &[u8], stop: u8) -> &[u8]
    ensures { result.now ≡ before_first (λ b. b == stop) bytes.now }
{
    match first_place(bytes, stop) {
        Some(end) => &bytes[..end],
        None => bytes,
    }
}

/// The place of the first such byte.
fn first_place(bytes: &[u8], stop: u8) -> Option<usize>
    ensures { result ≡ position (λ b. b == stop) bytes.now }
{
    bytes.iter().position(|b| *b == stop)
}

/// The bytes of the part.
fn part(bytes: &[u8], part: Part) -> &[u8]
    requires { IsWithin (length bytes.now) part }
    ensures { result.now ≡ part_bytes bytes.now part }
{
    &bytes[part.start..part.end]
}
