// Why macro text isn't read.
ghost use Rattle.std.specs.Prelude.{◌≡◌};
ghost use Rattle.macro_read.specs.declared.fault.MacroFault.TheVariants.{WantMemory as Wanted};

use std::alloc::AllocFailed;

/// Why macro text isn't read.
#[derive(Clone, Copy, Debug, PartialEq, Eq)]
pub enum MacroFault {
    /// The first line that isn't understood, counted from 1.
    BadLine { line: u32 },
    /// Memory was refused; of the text nothing is known.
    WantMemory,
}

impl<T: Drop> From<AllocFailed<T>> for MacroFault {
    ghost from_gives = { λ _ e. e ≡ Wanted };

    fn from(_: AllocFailed<T>) -> MacroFault {
        MacroFault::WantMemory
    }
}
