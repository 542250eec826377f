// The reader of a settings file.
ghost use Rattle.std.specs.Prelude.{◌≡◌, ◌≤◌, ℕ, IfOk, IfErr, OnOk, None, Some, Ok, Err};
ghost use Rattle.toml.specs.View.{table_view};
ghost use Rattle.craft_settings.specs.declared.fault.SettingsFault.{SettingsFault};
ghost use Rattle.craft_settings.specs.Ranges.{SettingsFields};
ghost use Rattle.craft_settings.specs.Accepts.{Accepts, GivesBy, IsOrMemory};
ghost use Rattle.craft_settings.specs.Fault.{OrMemory};
ghost use Rattle.craft_settings.specs.FirstVersion.{IsFirst, IsFirstAnswer};
ghost use Rattle.craft_settings.specs.Names.{action_fault};
ghost use Rattle.craft_settings.specs.Reading.{file_fault, fault_by, base_progress, base_quality};
ghost use Rattle.craft_settings.specs.Steps.{given_fault, step_fault, IsInRange};

use crate::Settings;
use crate::checks::{Check, first_fault};
use crate::document::{flag_at, is_two, parse};
use crate::fault::SettingsFault;
use crate::forbid::forbidden;
use crate::keys::Key;
use crate::numbers::{Bases, base_values, has_two_bases, number_at};
use crate::unknown::check_keys;
use std::alloc::Global;
use toml::Table;

/// The most bytes that a settings file may have.
pub const MAX_LENGTH: usize = 65536;

/// Reads a settings file, a TOML document of at most 65536 bytes.
///
/// The answer is the settings that the file gives, or else its first fault, in the order of the variants of
/// `SettingsFault`. `WantMemory` may come at any point.
pub fn read(alloc: Global, bytes: &[u8]) -> Result<Settings, SettingsFault>
    // Unless memory runs out, `Ok` comes exactly for an accepted file, with its settings ..
    ensures accepted { IfOk result (Accepts bytes.now) }
    ensures accepts { (g : SettingsFields) → Accepts bytes.now g → IsOrMemory result (Ok g) }

    // .. and each fault exactly for a file of which it is the first.
    ensures fault { IfErr result (λ e. OrMemory e (file_fault bytes.now ≡ Some e)) }
    ensures refuses { (e : SettingsFault) → file_fault bytes.now ≡ Some e → IsOrMemory result (Err e) }

    // A document whose version isn't 2 is read by the list of the first version.
    ensures first_version { IsFirst bytes.now → IsFirstAnswer bytes.now result }
{
    read_file(alloc, bytes)
}

#[tactic(auto, unfolding(crate::specs::Reading::file_fault_by))]
fn read_file(alloc: Global, bytes: &[u8]) -> Result<Settings, SettingsFault>
    ensures accepted { IfOk result (Accepts bytes.now) }
    ensures fault { IfErr result (λ e. OrMemory e (file_fault bytes.now ≡ Some e)) }
{
    if bytes.len() > MAX_LENGTH {
        return Err(SettingsFault::TooLong);
    }
    match parse(alloc, bytes) {
        Ok(doc) => interpret(alloc, &doc, is_two(&doc)),
        Err(fault) => Err(fault),
    }
}

/// The settings of a document by the list of a version.
#[tactic(auto, using(crate::proofs::Places::first_steps))]
fn interpret(alloc: Global, doc: &Table, two: bool) -> Result<Settings, SettingsFault>
    ensures ok { OnOk result (fault_by two (table_view doc.now) ≡ None) }
    ensures settings { IfOk result (GivesBy two (table_view doc.now)) }
    ensures err { IfErr result (λ e. OrMemory e (fault_by two (table_view doc.now) ≡ Some e)) }
{
    steps(alloc, doc, two)
}

#[tactic(auto, unfolding(crate::specs::Steps::step_fault))]
fn steps(alloc: Global, doc: &Table, two: bool) -> Result<Settings, SettingsFault>
    ensures ok { OnOk result (step_fault two (table_view doc.now) ≡ None) }
    ensures settings { IfOk result (GivesBy two (table_view doc.now)) }
    ensures err { IfErr result (λ e. OrMemory e (step_fault two (table_view doc.now) ≡ Some e)) }
{
    check_keys(alloc, doc, two)?;
    check_values(doc, two)?;
    let bases = base_values(doc)?;
    if has_two_bases(doc) {
        return Err(SettingsFault::TwoBases);
    }
    settings_of(alloc, doc, two, bases)
}

/// Refuses absent keys, values of the wrong kind and numbers out of range.
#[tactic(auto, unfolding(crate::specs::Steps::given_fault))]
fn check_values(doc: &Table, two: bool) -> Result<(), SettingsFault>
    ensures ok { OnOk result (given_fault two (table_view doc.now) ≡ None) }
    ensures in_range { OnOk result (IsInRange (table_view doc.now)) }
    ensures err { IfErr result (λ e. given_fault two (table_view doc.now) ≡ Some e) }
{
    if let Some(fault) = first_fault(Check::Presence, doc, two) {
        return Err(fault);
    }
    if let Some(fault) = first_fault(Check::Sort, doc, two) {
        return Err(fault);
    }
    if let Some(fault) = first_fault(Check::Range, doc, two) {
        return Err(fault);
    }
    Ok(())
}

/// The settings, of a document whose names alone may have a fault.
fn settings_of(
    alloc: Global,
    doc: &Table,
    two: bool,
    bases: Bases,
) -> Result<Settings, SettingsFault>
    requires in_range { IsInRange (table_view doc.now) }
    requires progress { bases.progress ≡ base_progress (table_view doc.now) }
    requires quality { bases.quality ≡ base_quality (table_view doc.now) }
    ensures ok { OnOk result (action_fault two (table_view doc.now) ≡ None) }
    ensures settings { IfOk result (GivesBy two (table_view doc.now)) }
    ensures err { IfErr result (λ e. OrMemory e (action_fault two (table_view doc.now) ≡ Some e)) }
{
    let forbidden = forbidden(alloc, doc, two)?;
    let quality = number_at(doc, Key::QUALITY, 0);
    Ok(Settings {
        level: number_at(doc, Key::LEVEL, 1),
        cp: number_at(doc, Key::CP, 0),
        durability: number_at(doc, Key::DURABILITY, 10),
        progress: number_at(doc, Key::PROGRESS, 1),
        quality,
        initial: number_at(doc, Key::INITIAL_QUALITY, 0),
        base_progress: bases.progress,
        base_quality: bases.quality,
        forbidden,
        target: number_at(doc, Key::TARGET, quality),
        backload: flag_at(doc, Key::BACKLOAD),
    })
}
