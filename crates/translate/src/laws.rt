ghost use Rattle.translate.specs.Translation.{AcknowledgesSamePosition, KeepsPosition, StandsAtSamePosition, ToClientNumbers, ToServerNumbers};

/// A law: from where and to where a segment goes that is passed on to the server, and its numbers, flags and data.
pub fn to_server_numbers()
    ensures { ToServerNumbers }
{}

/// A law: the same of a segment that is passed on to the client.
pub fn to_client_numbers()
    ensures { ToClientNumbers }
{}

/// What holds of every position: it keeps its place when it is counted from another first number. So what a client
/// acknowledges of the forged stream is acknowledged of the server's, and what stands in the server's stream stands at
/// the same place of the forged one.
pub fn translations()
    ensures position { KeepsPosition }
    ensures to_server { AcknowledgesSamePosition }
    ensures to_client { StandsAtSamePosition }
{}
