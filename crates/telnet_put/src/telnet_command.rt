//! What a line of a telnet session asks.
ghost use Rattle.std.specs.Prelude.{◌≡◌};
ghost use Rattle.telnet_put.specs.TelnetCommands.{request_of};
ghost use Rattle.telnet_put.specs.Requests.{closes};

/// A request of a telnet session, by its first word. Words behind one other than `put` don't count.
#[derive(Clone, Copy)]
pub enum Command<'a> {
    /// `put`, and what stands behind it: the text of a point, or a text that is none.
    Put { text: &'a [u8] },
    /// `version`
    Version,
    /// `help`
    Help,
    /// `stats`
    Stats,
    /// `dropcaches`
    DropCaches,
    /// `exit`, which closes the session
    Exit,
    /// `diediedie`, which closes the session
    Die,
    /// A line of more than 8,192 bytes, whatever they are.
    TooLong,
    /// Any other line.
    Other,
}

impl Command<'_> {
    /// Whether it closes the session: no request comes behind it.
    pub fn closes(&self) -> bool
        ensures { result ≡ closes (request_of self.now) }
    {
        matches!(self, Command::Exit | Command::Die)
    }
}
