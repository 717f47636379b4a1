//! The meaning of a pass between any two calls, of any number of threads: the log and the board
//! together; and the meaning of a connection.

ghost use Rattle.exchange_laws.specs.PassesConnections.{ConnectionsAreTrue};
ghost use Rattle.exchange_laws.specs.Passes.{PassesAreTrue, PassesKeepBounds};

/// The law of passes: where a board keeps its rule, and the log beside it is that of its keeper's
/// book, each pass of any seat is outstanding in the log, no other seat has it, and all seats
/// together have no more passes of a server than the log's bound of that server.
pub fn passes_are_true()
    ensures passes { PassesAreTrue }
    ensures bounds { PassesKeepBounds }
{}

/// The law of connections: an exchange that is connected to a server holds a pass by which the log
/// gave a slot of that server to a request that isn't over, between any two calls, whichever thread
/// drives it.
pub fn connections_are_true()
    ensures { ConnectionsAreTrue }
{}
