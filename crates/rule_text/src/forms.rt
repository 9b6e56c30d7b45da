ghost use Rattle.std.specs.Prelude.{◌≡◌, ◌==◌, ◌&&◌, not};
ghost use Rattle.std.specs.List.{list_all};
ghost use Rattle.rule_table.specs.Forms.{is_cookie as is_cookie_text, is_host as is_host_text, is_path as is_path_text, is_visible, is_word as is_word_of};
ghost use Rattle.rule_text.specs.Forms.{address_of as address_in, is_name_byte, is_server_name as is_server_name_text, secret_of as secret_in};

use hex::FromHex;
use std::net::Ipv4Addr;

/// Whether the text may name a server: 1 to 64 ASCII letters, digits, `-` and `_`.
pub fn is_server_name(text: &[u8]) -> bool
    ensures { result ≡ is_server_name_text text.now }
{
    !text.is_empty() && text.len() <= 64 && has_name_bytes_alone(text)
}

/// Whether each byte is a letter, a digit, `-` or `_`.
fn has_name_bytes_alone(text: &[u8]) -> bool
    ensures { result ≡ list_all is_name_byte text.now }
{
    text.iter()
        .all(|b| b.is_ascii_alphanumeric() || *b == b'-' || *b == b'_')
}

/// A condition of a rule.
#[derive(Clone, Copy)]
pub enum Condition {
    Host,
    Path,
    Cookie,
}

impl Condition {
    ghost use Rattle.rule_text.specs.Conditions.{allows as allows_text, key_of};

    /// The field that has it.
    pub fn key(self) -> &'static str
        ensures { result.now ≡ key_of self }
    {
        match self {
            Condition::Host => "host",
            Condition::Path => "path",
            Condition::Cookie => "cookie",
        }
    }

    /// Whether it may have this text.
    pub fn allows(self, text: &[u8]) -> bool
        ensures { result ≡ allows_text self text.now }
    {
        match self {
            Condition::Host => is_host(text),
            Condition::Path => is_path(text),
            Condition::Cookie => is_cookie(text),
        }
    }
}

/// Whether the text may be a host: 1 to 255 printable ASCII characters without space and `:`.
fn is_host(text: &[u8]) -> bool
    ensures { result ≡ is_host_text text.now }
{
    is_word(text, 255, b':')
}

/// Whether the text may be a path: 1 to 1,024 printable ASCII characters without space and `?`, the first of them `/`.
fn is_path(text: &[u8]) -> bool
    ensures { result ≡ is_path_text text.now }
{
    is_word(text, 1024, b'?') && matches!(text, [b'/', ..])
}

/// Whether the text may be a cookie: 1 to 1,024 printable ASCII characters without space and `;`, among them `=`.
fn is_cookie(text: &[u8]) -> bool
    ensures { result ≡ is_cookie_text text.now }
{
    is_word(text, 1024, b';') && text.contains(&b'=')
}

/// Whether the text has from 1 to so many printable ASCII characters, and neither a space nor the other one.
fn is_word(text: &[u8], limit: usize, other: u8) -> bool
    ensures { result ≡ is_word_of limit other text.now }
{
    !text.is_empty() && text.len() <= limit && is_visible_without(text, other)
}

/// Whether each byte is a printable ASCII character, no space and not the other one.
fn is_visible_without(text: &[u8], other: u8) -> bool
    ensures { result ≡ list_all (λ b. is_visible b && not (b == other)) text.now }
{
    text.iter().all(|b| 32 < *b && *b < 127 && *b != other)
}

/// The IPv4 address that the text writes.
pub fn address_of(text: &str) -> Option<u32>
    ensures { result ≡ address_in text.now }
{
    match Ipv4Addr::parse_ascii(text.as_bytes()) {
        Ok(address) => Some(address.to_bits()),
        Err(_) => None,
    }
}

/// The 32 bytes that the text writes as 64 hex digits.
#[tactic(auto, unfolding(crate::specs::Forms::secret_of))]
pub fn secret_of(text: &str) -> Option<[u8; 32]>
    ensures { result ≡ secret_in text.now }
{
    match <[u8; 32] as FromHex>::from_hex(text) {
        Ok(secret) => Some(secret),
        Err(_) => None,
    }
}
