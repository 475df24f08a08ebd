//! How an import ends.
ghost use Rattle.std.specs.Prelude.{◌≡◌};

/// How the job of `import` ends.
#[derive(Clone, Copy, Debug, PartialEq, Eq)]
pub enum ImportEnd {
    /// All lines were accepted, and the listing was given.
    Done,
    /// A line was refused, as was told.
    Refused,
    /// The source failed.
    ReadFault,
    /// The sink failed.
    WriteFault,
    /// There was no memory.
    OutOfMemory,
    /// The halt refused a step.
    Stopped,
    /// 2^40 bytes of input came without their end.
    SessionFull,
}

/// How the job of `import` ended, and its halt as its last step left it.
#[derive(Drop)]
pub struct Imported<H> {
    pub end: ImportEnd,
    pub halt: H,
}
