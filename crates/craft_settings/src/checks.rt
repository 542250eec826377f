// The checks of each key.
ghost use Rattle.std.specs.Prelude.{◌≡◌, option_map, Option, Some};
ghost use Rattle.toml.specs.View.{view, table_view, items_view};
ghost use Rattle.craft_settings.specs.Keys.{row_of, places};
ghost use Rattle.craft_settings.specs.Fault.{first_some, is_needed, has_kind, fits, stray, is_missing, is_misfit, missing_at, misfit_at, are_strings};
ghost use Rattle.craft_settings.specs.Steps.{outside_at, base_fault, fault_at};

use crate::document::{integer, is_shut, is_stats, value};
use crate::fault::SettingsFault;
use crate::keys::{KEYS, Key, Kind, Need};
use toml::{Table, Value};

/// What is looked for at a key.
#[derive(Clone, Copy, Debug)]
pub(crate) enum Check {
    Presence,
    Sort,
    Range,
}

impl Need {
    /// Whether a key with this need has to be there, in the stats form or in the base form.
    fn holds(self, stats: bool) -> bool
        ensures { result ≡ is_needed self stats }
    {
        match self {
            Need::Never => false,
            Need::Always => true,
            Need::InStats => stats,
            Need::InBase => !stats,
        }
    }
}

impl Kind {
    /// Whether a value is of this kind.
    fn has(self, value: &Value) -> bool
        ensures { result ≡ has_kind self (view value.now) }
    {
        match self {
            Kind::Table => value.is_table(),
            Kind::Number { .. } | Kind::Fives { .. } => value.is_integer(),
            Kind::Flag => value.is_bool(),
            Kind::Names => match value.as_array() {
                Some(items) => are_strings(items.as_slice()),
                None => false,
            },
        }
    }

    /// Whether a number is in the range, where this kind has one.
    fn fits(self, number: i64) -> bool
        ensures { result ≡ fits self number }
    {
        match self {
            Kind::Number { low, high } => i64::from(low) <= number && number <= i64::from(high),
            Kind::Fives { low, high } => {
                i64::from(low) <= number && number <= i64::from(high) && number % 5 == 0
            }
            _ => true,
        }
    }
}

fn are_strings(items: &[Value]) -> bool
    ensures { result ≡ are_strings (items_view items.now) }
{
    for item in items {
        if !item.is_str() {
            return false;
        }
    }
    true
}

/// Whether the form needs the key, and it is absent.
#[tactic(auto, unfolding(crate::specs::Fault::is_missing))]
fn is_missing(doc: &Table, key: Key) -> bool
    ensures { result ≡ is_missing (table_view doc.now) (row_of key) }
{
    let row = key.row();
    row.need.holds(is_stats(doc)) && !is_shut(doc, row.section) && value(doc, key).is_none()
}

/// Whether the value isn't of the kind of the key.
#[tactic(auto, unfolding(crate::specs::Fault::is_misfit))]
fn is_misfit(doc: &Table, key: Key) -> bool
    ensures { result ≡ is_misfit (table_view doc.now) (row_of key) }
{
    match value(doc, key) {
        Some(value) => !key.row().kind.has(value),
        None => false,
    }
}

#[tactic(auto, unfolding(crate::specs::Fault::missing_at))]
fn missing_at(doc: &Table, key: Key) -> Option<SettingsFault>
    ensures { result ≡ missing_at (table_view doc.now) key }
{
    if is_missing(doc, key) {
        Some(SettingsFault::Missing { path: key })
    } else {
        None
    }
}

#[tactic(auto, unfolding(crate::specs::Fault::misfit_at))]
fn misfit_at(doc: &Table, key: Key) -> Option<SettingsFault>
    ensures { result ≡ misfit_at (table_view doc.now) key }
{
    if is_misfit(doc, key) {
        Some(SettingsFault::WrongKind { path: key })
    } else {
        None
    }
}

/// The fault of a number that isn't in the range of its key.
#[tactic(auto, unfolding(crate::specs::Fault::stray))]
fn range_fault(key: Key, value: i64) -> Option<SettingsFault>
    ensures { result ≡ option_map (SettingsFault.OutOfRange key) (stray (row_of key).kind (Some value)) }
{
    if key.row().kind.fits(value) {
        None
    } else {
        Some(SettingsFault::OutOfRange { path: key, value })
    }
}

/// The fault of a computed base value that isn't in the range of its key.
#[tactic(auto, unfolding(crate::specs::Steps::base_fault))]
pub(crate) fn base_fault(key: Key, value: u32) -> Option<SettingsFault>
    ensures { result ≡ base_fault key value }
{
    range_fault(key, i64::from(value))
}

#[tactic(auto, unfolding(crate::specs::Steps::outside_at, crate::specs::Fault::stray))]
fn outside_at(doc: &Table, key: Key) -> Option<SettingsFault>
    ensures { result ≡ outside_at (table_view doc.now) key }
{
    match integer(doc, key) {
        Some(number) => range_fault(key, number),
        None => None,
    }
}

/// What a check finds at a key.
fn fault_at(check: Check, doc: &Table, key: Key) -> Option<SettingsFault>
    ensures { result ≡ fault_at check (table_view doc.now) key }
{
    match check {
        Check::Presence => missing_at(doc, key),
        Check::Sort => misfit_at(doc, key),
        Check::Range => outside_at(doc, key),
    }
}

/// The first fault that a check finds at the keys of a version.
pub(crate) fn first_fault(check: Check, doc: &Table, two: bool) -> Option<SettingsFault>
    ensures { result ≡ first_some (fault_at check (table_view doc.now)) (places two) }
{
    for place in 0..KEYS {
        let key = Key::new(place);
        if key.is_in(two) {
            if let Some(fault) = fault_at(check, doc, key) {
                return Some(fault);
            }
        }
    }
    None
}
