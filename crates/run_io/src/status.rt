// How a run ended.
ghost use Rattle.std.specs.Prelude.{◌≡◌};
ghost use Rattle.run_io.specs.Statuses.{code_of};

/// How a run ended.
#[derive(Clone, Copy, Debug, PartialEq, Eq)]
pub enum Status {
    /// The text that was asked for was written.
    Solved,
    /// No legal macro completes the craft, and `none` was written.
    NoMacro,
    /// The words aren't understood. Nothing was read.
    BadWords,
    /// What was read holds no settings.
    BadSettings,
    /// The source failed.
    ReadFault,
    /// The sink failed, after some of the text or none.
    WriteFault,
    /// Memory was asked for and refused, before the first byte was written.
    WantMemory,
    /// The actions that are done aren't legal in turn, or the craft is over after them.
    BadPrefix,
    /// No base quality that is tried is enough, and a text that says so was written.
    NotReached,
    /// The settings are followed by no macro text.
    BadMacro,
    /// An action of the macro isn't legal in its turn, and the text up to it was written.
    StoppedMacro,
    /// The macro isn't the best one, and the text of the best one was written.
    NotBest,
    /// The settings are followed by no certificate.
    BadCertificate,
}

impl Status {
    /// The exit status of the program.
    pub fn code(self) -> u8
        ensures { result ≡ code_of self }
    {
        match self {
            Status::Solved => 0,
            Status::NoMacro => 1,
            Status::BadWords => 2,
            Status::BadSettings => 3,
            Status::ReadFault => 4,
            Status::WriteFault => 5,
            Status::WantMemory => 6,
            Status::BadPrefix => 7,
            Status::NotReached => 8,
            Status::BadMacro => 9,
            Status::StoppedMacro => 10,
            Status::NotBest => 11,
            Status::BadCertificate => 12,
        }
    }
}
