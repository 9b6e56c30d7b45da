/// What a generated run has come to.
#[derive(Clone, Copy, Debug, PartialEq, Eq)]
pub struct Summary {
    /// How many clients there are.
    pub flows: u32,
    /// How many clients saw the peer's close and had their own acknowledged.
    pub closed: u32,
    /// How many clients are neither closed nor reset.
    pub open: u32,
    /// How many clients are dead.
    pub reset: u32,
    /// How many bytes all server ends have received.
    pub to_servers: u64,
    /// How many bytes all client ends have received.
    pub to_clients: u64,
}
