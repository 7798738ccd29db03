// How a run ended.
ghost use Rattle.std.specs.Prelude.{◌≡◌};

/// How a run ended, in the order of the numbers that the program ends with.
#[derive(Debug, Clone, Copy, PartialEq, Eq)]
pub enum Status {
    /// The report was written, and no reply is Failed.
    Fine,
    /// The report was written, and some reply is Failed.
    SomeFailed,
    /// A word of the command line is at fault; its line was written, and the source is unread.
    Words,
    /// The script has a fault; its line was written, and nothing ran.
    Script,
    /// The source failed; nothing was written.
    SourceFault,
    /// The sink failed, or took nothing of a piece; a prefix of what was to be written was.
    SinkFault,
    /// Want of memory before the first statement; nothing was written.
    Memory,
}

impl Status {
    ghost use Rattle.oodb.specs.Status.{code_of};

    /// The number that the program ends with.
    pub fn code(self) -> u8
        ensures { result ≡ code_of self }
    {
        match self {
            Status::Fine => 0,
            Status::SomeFailed => 1,
            Status::Words => 2,
            Status::Script => 3,
            Status::SourceFault => 4,
            Status::SinkFault => 5,
            Status::Memory => 6,
        }
    }
}
