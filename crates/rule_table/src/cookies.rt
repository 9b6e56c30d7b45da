ghost use Rattle.std.specs.Prelude.{◌≡◌, ◌<◌, ◌≤◌, ℕ, IfSome, Some, false, get_or, length, option_map};
ghost use Rattle.http_head.specs.Fields.{has_pair};
ghost use Rattle.http_head.specs.Parts.{AreFieldsOf, IsHeadOf};
ghost use Rattle.http_head.specs.Reading.{reading};
ghost use Rattle.rule_table.specs.Found.{AreCookiesOf};
ghost use Rattle.rule_table.specs.Hash.{first_slot as slot_of, hash_of};
ghost use Rattle.rule_table.specs.Index.{cookie_at as cookie_of, found_at, is_met};

use crate::hashing::hash;
use crate::types::{Rule, Text};
use http_head::{Fields, HttpHead, Pieces, cookies, fields_of, has_cookie_in};

/// The most rules that a setup has.
const RULES: usize = 256;

/// How many slots a hash may name.
const NAMED: usize = 2048;

/// All slots. The rules' cookies have room even where all hashes name the last of those that a hash may name.
const SLOTS: usize = NAMED + RULES;

/// A slot with the number of no rule.
const EMPTY: u16 = u16::MAX;

/// The cookies of a head, gone through once, against those of the rules.
#[derive(Drop)]
pub struct Cookies {
    fields: Fields,
    /// The numbers of rules, each in or behind the slot that its cookie's hash names.
    slots: [u16; SLOTS],
    /// By the number of a rule that is found for a cookie of the head.
    met: [bool; RULES],
}

impl Cookies {
    /// Those of the head that was read from these bytes. It takes no memory.
    pub fn of(rules: &[Rule], bytes: &[u8], head: &HttpHead) -> Cookies
        requires few { length rules.now ≤ 256 }
        requires head { IsHeadOf bytes.now head.now }
        ensures { AreCookiesOf rules.now bytes.now result }
    {
        let fields = fields_of(bytes, head);
        let slots = slots_of(rules);
        let met = met_by(rules, &slots, cookies(bytes, &fields));
        Cookies { fields, slots, met }
    }

    /// Whether the head has the cookie, which is that of one of the rules. A cookie that has found no slot is looked for
    /// in the head itself.
    pub fn has(&self, rules: &[Rule], bytes: &[u8], cookie: &Text) -> bool
        requires few { length rules.now ≤ 256 }
        requires cookies { AreCookiesOf rules.now bytes.now self.now }
        ensures { result ≡ has_pair (reading bytes.now) cookie.now }
    {
        match find(rules, &self.slots, cookie.as_slice(), cookie.hash()) {
            Some(number) => self.met[number as usize],
            None => has_cookie_in(bytes, &self.fields, cookie.as_slice()),
        }
    }
}

/// Which numbers of rules are found for the pieces.
fn met_by(rules: &[Rule], slots: &[u16], pieces: Pieces) -> [bool; RULES]
    requires { length rules.now ≤ 256 }
    ensures { (number : ℕ) → number < 256 → get_or result number false ≡ is_met rules.now slots.now pieces.entry number }
{
    let mut left = pieces;
    let mut met = [false; RULES];
    while let Some(piece) = left.next() {
        if let Some(number) = find(rules, slots, piece, hash(piece)) {
            met[number as usize] = true;
        }
    }
    met
}

/// The number of a rule with this cookie, looked for from the slot that its hash names up to an empty one. It is the
/// same for the same slots, whatever they hold.
fn find(rules: &[Rule], slots: &[u16], cookie: &[u8], hash: u32) -> Option<u16>
    requires { hash ≡ hash_of cookie.now }
    ensures found { result ≡ found_at rules.now slots.now cookie.now }
    ensures cookie { IfSome result (λ number. cookie_of rules.now number ≡ Some cookie.now) }
    ensures rule { IfSome result (λ number. number < length rules.now) }
{
    let behind = slots.get(first_slot(hash)..)?;
    for number in behind {
        match cookie_at(rules, *number) {
            None => return None,
            Some(other) if other.as_slice() == cookie => return Some(*number),
            Some(_) => {}
        }
    }
    None
}

/// The slot that the hash names.
fn first_slot(hash: u32) -> usize
    ensures slot { result ≡ slot_of hash }
    ensures within { result < 2048 }
{
    (hash.wrapping_mul(0x9e37_79b9) / 0x1_0000) as usize % NAMED
}

/// The cookie of the rule with that number.
fn cookie_at(rules: &[Rule], number: u16) -> Option<&Text>
    ensures { option_map (λ t. t.now) result ≡ cookie_of rules.now number }
{
    rules.get(number as usize)?.cookie.as_ref()
}

/// The slots of the rules' cookies, one for those that are the same.
fn slots_of(rules: &[Rule]) -> [u16; SLOTS]
    requires { length rules.now ≤ 256 }
{
    let mut slots = [EMPTY; SLOTS];
    for (number, rule) in rules.iter().enumerate() {
        if let Some(cookie) = &rule.cookie {
            put(rules, &mut slots, cookie, number as u16);
        }
    }
    slots
}

/// Puts the number into the first empty slot from the one that the cookie's hash names, unless the cookie is found
/// before.
fn put(rules: &[Rule], slots: &mut [u16], cookie: &Text, number: u16) {
    let start = first_slot(cookie.hash());
    let Some(behind) = slots.get_mut(start..) else {
        return;
    };
    for slot in behind {
        match cookie_at(rules, *slot) {
            None => {
                *slot = number;
                return;
            }
            Some(other) if other.as_slice() == cookie.as_slice() => return,
            Some(_) => {}
        }
    }
}
