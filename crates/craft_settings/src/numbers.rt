// The numbers of a document whose numbers are in range.
ghost use Rattle.std.specs.Prelude.{◌≡◌, ◌<◌, ◌≤◌, ◌^◌, IfOk, IfErr, OnOk, None, Some, is_some};
ghost use Rattle.std.specs.List.{list_any};
ghost use Rattle.toml.specs.View.{table_view};
ghost use Rattle.craft_settings.specs.Keys.{stats_places};
ghost use Rattle.craft_settings.specs.Document.{value_at};
ghost use Rattle.craft_settings.specs.Ranges.{IsFromTo};
ghost use Rattle.craft_settings.specs.Reading.{number_at, modifier, stats_progress, stats_quality, base_progress, base_quality, has_two_bases};
ghost use Rattle.craft_settings.specs.Steps.{computed_fault, IsInRange};

use crate::checks::base_fault;
use crate::document::{flag_at, integer, is_stats, value};
use crate::fault::SettingsFault;
use crate::keys::Key;
use craft_numbers::base_of;
use toml::Table;

/// The number of a key, or else the other one.
#[tactic(auto, unfolding(crate::specs::Reading::number_from))]
pub(crate) fn number_at(doc: &Table, key: Key, other: u32) -> u32
    requires { number_at (table_view doc.now) key other < 2 ^ 32 }
    ensures { result ≡ number_at (table_view doc.now) key other }
{
    match integer(doc, key) {
        Some(number) => { if number < 0 { other } else { number as u32 } }
        None => other,
    }
}

/// The percentage of a base value.
fn modifier(doc: &Table, key: Key) -> u32
    requires { number_at (table_view doc.now) key 100 ≤ 100 }
    ensures value { result ≡ modifier (table_view doc.now) key }
    ensures small { result ≤ 100 }
{
    if flag_at(doc, Key::PENALTY) {
        number_at(doc, key, 100)
    } else {
        100
    }
}

#[tactic(auto, unfolding(crate::specs::Reading::stats_progress))]
fn stats_progress(doc: &Table) -> u32
    requires { IsInRange (table_view doc.now) }
    ensures { result ≡ stats_progress (table_view doc.now) }
{
    let stat = number_at(doc, Key::CRAFTSMANSHIP, 0);
    let div = number_at(doc, Key::PROGRESS_DIV, 1);
    base_of(stat, div, 2, modifier(doc, Key::PROGRESS_MOD))
}

#[tactic(auto, unfolding(crate::specs::Reading::stats_quality))]
fn stats_quality(doc: &Table) -> u32
    requires { IsInRange (table_view doc.now) }
    ensures { result ≡ stats_quality (table_view doc.now) }
{
    let stat = number_at(doc, Key::CONTROL, 0);
    let div = number_at(doc, Key::QUALITY_DIV, 1);
    base_of(stat, div, 35, modifier(doc, Key::QUALITY_MOD))
}

/// The base values of a craft: what an action of 100 percent adds to progress and to quality.
#[derive(Clone, Copy)]
pub(crate) struct Bases {
    pub(crate) progress: u32,
    pub(crate) quality: u32,
    ghost progress_in: { IsFromTo 1 5000 progress },
    ghost quality_in: { IsFromTo 1 5000 quality },
}

/// The base values of a document, given or from the stats.
#[tactic(auto, unfolding(crate::specs::Steps::computed_fault, crate::specs::Reading::base_progress, crate::specs::Reading::base_quality))]
pub(crate) fn base_values(doc: &Table) -> Result<Bases, SettingsFault>
    requires { IsInRange (table_view doc.now) }
    ensures progress { IfOk result (λ b. b.progress ≡ base_progress (table_view doc.now)) }
    ensures quality { IfOk result (λ b. b.quality ≡ base_quality (table_view doc.now)) }
    ensures ok { OnOk result (computed_fault (table_view doc.now) ≡ None) }
    ensures err { IfErr result (λ e. computed_fault (table_view doc.now) ≡ Some e) }
{
    if !is_stats(doc) {
        return Ok(Bases {
            progress: number_at(doc, Key::BASE_PROGRESS, 1),
            quality: number_at(doc, Key::BASE_QUALITY, 1),
        });
    }
    let progress = stats_progress(doc);
    if let Some(fault) = base_fault(Key::BASE_PROGRESS, progress) {
        return Err(fault);
    }
    let quality = stats_quality(doc);
    if let Some(fault) = base_fault(Key::BASE_QUALITY, quality) {
        return Err(fault);
    }
    Ok(Bases { progress, quality })
}

const STATS_KEYS: [Key; 7] = [
    Key::CRAFTSMANSHIP,
    Key::CONTROL,
    Key::PROGRESS_DIV,
    Key::QUALITY_DIV,
    Key::PROGRESS_MOD,
    Key::QUALITY_MOD,
    Key::PENALTY,
];

/// Whether base values and stats are both given.
#[tactic(auto, unfolding(crate::specs::Reading::has_two_bases))]
pub(crate) fn has_two_bases(doc: &Table) -> bool
    ensures { result ≡ has_two_bases (table_view doc.now) }
{
    !is_stats(doc) && has_stats(doc)
}

fn has_stats(doc: &Table) -> bool
    ensures { result ≡ list_any (λ place. is_some (value_at (table_view doc.now) place)) stats_places }
{
    for key in &STATS_KEYS {
        if value(doc, *key).is_some() {
            return true;
        }
    }
    false
}
