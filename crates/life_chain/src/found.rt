use flow_record::Ask;
use seq_space::Num;

/// Where a chain stands.
#[derive(Clone, Copy, Debug, PartialEq, Eq)]
pub enum Found {
    /// It asks this of the store.
    Ask(Ask),
    /// The segment is of this life; of a SYN, the life whose Syn has its number.
    At { life: u16 },
    /// A SYN meets a life that has not ended, whose Syn has this other number.
    Other { number: Num },
    /// The client has no life there.
    Unknown,
    /// A SYN meets eight lives with other numbers, all of which have ended.
    Spent,
}
