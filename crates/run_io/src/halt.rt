// Why there is no text.
ghost use Rattle.std.specs.Prelude.{◌≡◌};
ghost use Rattle.run_io.specs.Halts.{line_of, status_of};
ghost use Rattle.run_io.specs.declared.halt.Halt.TheVariants.{WantMemory as HaltWantMemory};

use crate::answer::Refusal;
use crate::status::Status;
use action_table::WantMemory;

/// Why there is no text.
#[derive(Drop)]
pub enum Halt {
    BadWords,
    ReadFault,
    Refused(Refusal),
    WantMemory,
}

impl From<WantMemory> for Halt {
    ghost from_gives = { λ _ h. h ≡ HaltWantMemory };

    fn from(_: WantMemory) -> Self {
        Halt::WantMemory
    }
}

impl Halt {
    /// What came in is refused with this line.
    pub fn refused(status: Status, line: Vec<u8>) -> Halt
        ensures { result ≡ Halt.Refused (record { status = status; line = line }) }
    {
        Halt::Refused(Refusal { status, line })
    }

    pub(crate) fn status(&self) -> Status
        ensures { result ≡ status_of self.now }
    {
        match self {
            Halt::BadWords => Status::BadWords,
            Halt::ReadFault => Status::ReadFault,
            Halt::Refused(refusal) => refusal.status,
            Halt::WantMemory => Status::WantMemory,
        }
    }

    pub(crate) fn line(&self) -> &[u8]
        ensures { result.now ≡ line_of self.now }
    {
        match self {
            Halt::BadWords => b"words: not understood\n",
            Halt::ReadFault => b"input: read failed\n",
            Halt::Refused(refusal) => &refusal.line,
            Halt::WantMemory => b"memory: not enough\n",
        }
    }
}
