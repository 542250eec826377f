// Why words are not read.
ghost use Rattle.std.specs.Prelude.{◌≡◌, ◌≢◌};
ghost use Rattle.solve_words.specs.declared.fault.WordsFault.TheVariants.{WantMemory as Wanted};
ghost use Rattle.clap.specs.declared.error.kind.ErrorKind.TheVariants.{OutOfMemory};

use action_table::WantMemory;
use clap::error::ErrorKind;
use thiserror::Error;

/// Why words are not read.
#[derive(Debug, PartialEq, Eq, Drop, Error)]
pub enum WordsFault {
    /// The words are not of the form.
    #[error("the words are not understood")]
    BadWords,
    /// Memory was refused; of the words nothing is known.
    #[error("there is not enough memory")]
    WantMemory,
}

impl From<WantMemory> for WordsFault {
    ghost from_gives = { λ _ e. e ≡ Wanted };

    fn from(_: WantMemory) -> WordsFault {
        WordsFault::WantMemory
    }
}

// clap's cause as the reader's.
pub fn fault_for(kind: ErrorKind) -> WordsFault
    ensures { result ≡ WordsFault.BadWords → kind ≢ OutOfMemory }
{
    match kind {
        ErrorKind::OutOfMemory => WordsFault::WantMemory,
        _ => WordsFault::BadWords,
    }
}
