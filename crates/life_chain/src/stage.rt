use flow_record::Record;
use seq_space::Num;

/// What a chain asks at its life, or what it has found.
#[derive(Clone, Copy, Debug, PartialEq, Eq)]
pub(crate) enum Stage {
    /// A SYN with this record: the life's Syn is being decided.
    Claiming { own: Record },
    /// The life's Syn has another number: whether it was reset.
    Resetting { own: Record, number: Num },
    /// The life was not reset: whether its client has closed.
    ClientClosing { own: Record, number: Num },
    /// The client has closed: whether the server has, too.
    ServerClosing { own: Record, number: Num },
    /// Another segment: the life's Syn is asked for. That of the life before it is decided, where there is one.
    Finding { before: Option<(u16, Record)> },
    /// The segment is of this life, whose Syn is this.
    Settled { life: u16, syn: Record },
    /// A life whose Syn has this other number has not ended.
    Other { number: Num },
    /// There is no life.
    Unknown,
    /// All lives have other numbers and have ended.
    Spent,
}
