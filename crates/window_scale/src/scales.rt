/// The shift of the balancer's own windows, which it gives to a client that gives one.
pub const OWN_SHIFT: u8 = 7;

/// By how many bits each side shifts its windows, and those of the other. All are 0 where nothing is scaled.
#[derive(Clone, Copy, Debug, PartialEq, Eq)]
pub struct Shifts {
    /// The client's windows, as the client gives them.
    pub client_gives: u8,
    /// The client's windows, as the server reads them.
    pub server_reads: u8,
    /// The server's windows, as the server gives them.
    pub server_gives: u8,
    /// The server's windows, as the client reads them.
    pub client_reads: u8,
}
