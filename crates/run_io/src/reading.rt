// The input of a run, and the settings that are in it.
ghost use Rattle.std.specs.Prelude.{◌≡◌, IfErr, IfOk};
ghost use Rattle.craft_io.specs.Views.{GivesAtMost, ReadsAtMostTimes};
ghost use Rattle.run_io.specs.Halts.{CountsHalt, IsHaltOfReading, IsHaltOfSettings};
ghost use Rattle.run_io.specs.Reading.{AcceptsOnly, Reads};

use crate::fault_lines::settings_line;
use crate::halt::Halt;
use crate::status::Status;
use craft_io::{Source, fill};
use craft_settings::{MAX_LENGTH, Settings, read};
use std::alloc::Global;

/// One byte more than an input of settings may have, with macro text or without, so that a longer one is seen.
pub const READ_MOST: usize = MAX_LENGTH + 1;

/// Reads until so many bytes have come or the source is at its end.
pub fn read_up_to<S: Source>(alloc: Global, source: &mut S, most: usize) -> Result<Vec<u8>, Halt>
    ensures reads { IfOk result (λ input. Reads most input.items (S.view source.old) (S.view source.new)) }
    ensures halts { IfErr result (λ h. IsHaltOfReading most h (S.view source.old) (S.view source.new)) }
    ensures faults { CountsHalt result (S.view source.old).faults (S.view source.new).faults }
    ensures at_most { GivesAtMost most (S.view source.old) (S.view source.new) }
    ensures times { ReadsAtMostTimes most (S.view source.old) (S.view source.new) }
    ensures nothing { most ≡ 0 → source.new ≡ source.old }
{
    let Ok(mut bytes) = vec![in alloc; 0u8; most] else {
        return Err(Halt::WantMemory);
    };
    let Ok(count) = fill(source, &mut bytes) else {
        return Err(Halt::ReadFault);
    };
    bytes.truncate(count);
    Ok(bytes)
}

/// The settings that the bytes are. It halts where they are refused, and for want of memory.
pub fn settings_in(alloc: Global, bytes: &[u8]) -> Result<Settings, Halt>
    ensures accepted { IfOk result (AcceptsOnly bytes.now) }
    ensures halts { IfErr result (IsHaltOfSettings bytes.now) }
{
    match read(alloc, bytes) {
        Ok(settings) => Ok(settings),
        Err(fault) => Err(Halt::refused(Status::BadSettings, settings_line(alloc, &fault)?)),
    }
}
