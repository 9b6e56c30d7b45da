// What a hasher takes in of a flow or a key: two words of 64 bits, since it takes whole words in fastest.
ghost use Rattle.std.specs.Prelude.{◌≡◌, ◌++◌};
ghost use Rattle.std.specs.Hash as fed;
ghost use Rattle.std.specs.Cmp.Rules.{comparing, hashing};
ghost use Rattle.std.proofs.Common.{rules};
ghost use Rattle.flow_id.specs.Words.{flow_word, key_words};

use crate::key::{Flow, Key, Side};
use std::hash::{Hash, Hasher};

impl Hash for Flow {
    ghost hash_input = { λ f. fed.u64 (flow_word f) ++ fed.u64 f.life };

    ghost respects_eq = { Prim.search (hashing, rules) };

    fn hash<H: Hasher>(&self, state: &mut H) {
        state.write_u64(word_of(self));
        state.write_u64(self.life as u64);
    }
}

impl Hash for Key {
    ghost hash_input = { λ k. fed.u64 (key_words k).0 ++ fed.u64 (key_words k).1 };

    ghost respects_eq = { Prim.search (hashing, rules) };

    fn hash<H: Hasher>(&self, state: &mut H) {
        let (first, second) = words_of(self);
        state.write_u64(first);
        state.write_u64(second);
    }
}

/// The flow's service, address and port in one word.
fn word_of(flow: &Flow) -> u64
    ensures { result ≡ flow_word flow.now }
{
    flow.service as u64 * 0x1_0000_0000_0000 + flow.address as u64 * 0x1_0000 + flow.port as u64
}

/// The key in two words: its flow's, or the port's place, and the kind of key beside what is left.
fn words_of(key: &Key) -> (u64, u64)
    ensures { result ≡ key_words key.now }
{
    match key {
        Key::Syn(flow) => (word_of(flow), flow.life as u64),
        Key::Choice(flow) => (word_of(flow), flow.life as u64 + 0x1_0000),
        Key::Open(flow) => (word_of(flow), flow.life as u64 + 0x2_0000),
        Key::Gone(flow) => (word_of(flow), flow.life as u64 + 0x3_0000),
        Key::Fin(flow, Side::Client) => (word_of(flow), flow.life as u64 + 0x4_0000),
        Key::Fin(flow, Side::Server) => (word_of(flow), flow.life as u64 + 0x5_0000),
        Key::Port {
            service,
            server,
            port,
        } => (
            *service as u64 * 0x1_0000_0000_0000 + *server as u64 * 0x1_0000 + *port as u64,
            0x6_0000,
        ),
    }
}
