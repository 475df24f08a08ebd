//! How a run ends.
ghost use Rattle.std.specs.Prelude.{◌≡◌};
ghost use Rattle.batch_run.specs.Statuses.{number_of};

/// How a run ends. The program's exit status is its number.
#[derive(Clone, Copy, Debug, PartialEq, Eq)]
pub enum Status {
    /// The input was valid, and the answer was printed.
    Done,
    /// The words are no command.
    Usage,
    /// A line or the query was refused; the text that was printed names it.
    Refused,
    /// The source failed.
    ReadFault,
    /// The sink failed.
    WriteFault,
    /// There was no memory.
    Memory,
    /// The halt refused a step.
    Stopped,
    /// The doors failed.
    DoorFault,
    /// 2^40 bytes of input came without their end.
    SessionFull,
    /// The clock failed.
    ClockFault,
}

/// How a run ended, and its halt.
#[derive(Drop)]
pub struct Ended<H> {
    pub status: Status,
    pub halt: H,
}

impl Status {
    /// The exit status.
    pub fn number(self) -> u8
        ensures { result ≡ number_of self }
    {
        match self {
            Status::Done => 0,
            Status::Usage => 1,
            Status::Refused => 2,
            Status::ReadFault => 3,
            Status::WriteFault => 4,
            Status::Memory => 5,
            Status::Stopped => 6,
            Status::DoorFault => 7,
            Status::SessionFull => 8,
            Status::ClockFault => 9,
        }
    }
}
