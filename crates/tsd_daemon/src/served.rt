//! How the serving of a connection ends.

/// How the serving of a connection ended. The replies to the requests that were worked before were given in full, but for
/// `WriteFault`, after which a front of them was.
#[derive(Clone, Copy, Debug, PartialEq, Eq)]
pub enum Served {
    /// The source gave its end.
    End,
    /// The request `exit` came.
    Exit,
    /// The request `diediedie` came.
    Die,
    /// A request came that closes the connection, with its reply.
    Closed,
    /// The source failed.
    ReadFault,
    /// The sink failed.
    WriteFault,
    /// The clock failed, which was asked for the next request.
    ClockFault,
    /// The caller was stopped before a step of a request.
    Stopped,
    /// 2^40 bytes came, and neither their end nor a request that closes.
    SessionFull,
    /// There was no memory.
    OutOfMemory,
}
