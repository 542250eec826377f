// The line that tells a fault of the settings.
ghost use Rattle.std.specs.Prelude.{◌≡◌, ◌≢◌, ◌++◌, codes, IfOk, OnOk};
ghost use Rattle.std.specs.Fmt.{signed_decimal};
ghost use Rattle.run_io.specs.FaultLine.{settings_line};

use action_table::WantMemory;
use craft_settings::SettingsFault;
use std::alloc::{AllocError, Global};

/// The line of a fault. Want of memory stays what it is.
pub(crate) fn settings_line(alloc: Global, fault: &SettingsFault) -> Result<Vec<u8>, WantMemory>
    ensures line { IfOk result (λ line. line.items ≡ settings_line fault.now) }
    ensures memory { OnOk result (fault.now ≢ SettingsFault.WantMemory) }
{
    let line = match fault {
        SettingsFault::TooLong => Vec::from_slice(alloc, b"settings: too long\n"),
        SettingsFault::NotToml => Vec::from_slice(alloc, b"settings: not a TOML document\n"),
        SettingsFault::UnknownKey { path } => {
            with_bytes(alloc, b"settings: unknown key ", path.bytes())
        }
        SettingsFault::Missing { path } => {
            with_bytes(alloc, b"settings: missing key ", path.text().as_bytes())
        }
        SettingsFault::WrongKind { path } => with_bytes(
            alloc,
            b"settings: wrong kind of value at ",
            path.text().as_bytes(),
        ),
        SettingsFault::OutOfRange { path, value } => range_line(alloc, path.text(), *value),
        SettingsFault::TwoBases => {
            Vec::from_slice(alloc, b"settings: base values and stats are both given\n")
        }
        SettingsFault::UnknownAction { name } => {
            with_bytes(alloc, b"settings: unknown action ", name.bytes())
        }
        SettingsFault::WantMemory => return Err(WantMemory),
    };
    Ok(line?)
}

// A line that ends with a path or a name.
fn with_bytes(alloc: Global, words: &[u8], name: &[u8]) -> Result<Vec<u8>, AllocError>
    ensures { IfOk result (λ line. line.items ≡ words.now ++ (name.now ++ codes "\n")) }
{
    let mut line = Vec::from_slice(alloc, words)?;
    line.extend_from_slice(name)?;
    line.extend_from_slice(b"\n")?;
    Ok(line)
}

fn range_line(alloc: Global, path: &str, value: i64) -> Result<Vec<u8>, AllocError>
    ensures { IfOk result (λ line.
        line.items ≡ codes "settings: " ++ (signed_decimal value ++ (codes " is out of range at " ++ (path.now ++ codes "\n")))) }
{
    let line = format!(in alloc; "settings: {value} is out of range at {path}\n")?;
    Ok(line.into_bytes())
}
