ghost use Rattle.std.specs.Prelude.{◌≡◌};
ghost use Rattle.flow_record.specs.Records.{asked_key};

use flow_id::{Flow, Key, Side};
use seq_space::Num;

/// What is decided, once and for all, under a key of the same name.
#[derive(Clone, Copy, Debug, PartialEq, Eq)]
pub enum Record {
    /// The client's SYN: its sequence number, its maximum segment size and its window; by how many bits its windows are
    /// to be shifted, where it scales them (RFC 7323, 2.2); whether it takes selective acknowledgments (RFC 2018, 2).
    Syn {
        number: Num,
        mss: u16,
        window: u16,
        scale: Option<u8>,
        sack: bool,
    },
    /// The server that was chosen, and the number of the rule by which.
    Choice {
        server: u16,
        rule: u16,
    },
    /// The flow that owns a source port.
    Port(Flow),
    /// The connection to the server: which server, from which source port, and the server's first sequence number; by how
    /// many bits its windows are to be shifted, where it scales them, and whether it takes selective acknowledgments.
    Open {
        server: u16,
        port: u16,
        number: Num,
        scale: Option<u8>,
        sack: bool,
    },
    /// The sequence number of one side's FIN.
    Fin {
        side: Side,
        number: Num,
    },
    /// Who ended the flow: 0 the client, 1 the server, 2 the balancer.
    Gone {
        by: u8,
    },
}

/// What is asked of the store.
#[derive(Clone, Copy, Debug, PartialEq, Eq)]
pub enum Ask {
    /// Which record is decided under the key, if any.
    Get(Key),
    /// Which record is decided under the key: this one, where none is yet.
    Add(Key, Record),
}

impl Ask {
    /// The key that is asked for.
    pub fn key(&self) -> Key
        ensures { result ≡ asked_key self.now }
    {
        match *self {
            Ask::Get(key) => key,
            Ask::Add(key, _) => key,
        }
    }
}
