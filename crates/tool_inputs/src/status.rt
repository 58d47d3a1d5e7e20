//! How a run of the program ends.

ghost use Rattle.std.specs.Prelude.{◌≡◌};
ghost use Rattle.tool_inputs.specs.Status.{number_of};

/// How a run ended. The program's exit status is its number.
#[derive(Clone, Copy, Debug, PartialEq, Eq)]
pub enum Status {
    /// The command's output was written whole.
    Done,
    /// The words are none of the forms.
    Usage,
    /// A named file couldn't be read.
    ReadFault,
    /// A put failed or took nothing; a front of the text was written.
    WriteFault,
    /// The STIL text was refused.
    RefusedStil,
    /// A netlist was refused.
    RefusedNet,
    /// The plan was refused.
    RefusedPlan,
    /// The plan has more sites than there are sockets.
    TooFewSockets,
    /// There was no memory.
    OutOfMemory,
    /// A file has more than 16,777,216 bytes, or what is to be written of it has.
    TooLong,
    /// The bytes are no saved program.
    RefusedSaved,
    /// The flat text of a code would be refused.
    TooFlat,
    /// The plan has no die where one is asked for.
    NoDie,
    /// A try drives the die more often than a dump tells.
    TapeTooLong,
}

impl Status {
    /// The exit status.
    pub fn number(self) -> u8
        ensures { result ≡ number_of self }
    {
        match self {
            Status::Done => 0,
            Status::Usage => 1,
            Status::ReadFault => 2,
            Status::WriteFault => 3,
            Status::RefusedStil => 4,
            Status::RefusedNet => 5,
            Status::RefusedPlan => 6,
            Status::TooFewSockets => 7,
            Status::OutOfMemory => 8,
            Status::TooLong => 9,
            Status::RefusedSaved => 10,
            Status::TooFlat => 11,
            Status::NoDie => 12,
            Status::TapeTooLong => 13,
        }
    }
}
