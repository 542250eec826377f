// The document of a settings file, and what stands at its keys.
ghost use Rattle.std.specs.Prelude.{◌≡◌, Some, None, IfOk, IfErr, option_map};
ghost use Rattle.toml.specs.Data.{get_member};
ghost use Rattle.toml.specs.View.{view, table_view};
ghost use Rattle.craft_settings.specs.Keys.{row_of};
ghost use Rattle.craft_settings.specs.Document.{document, is_shut, value_at, is_stats, is_two};
ghost use Rattle.craft_settings.specs.Fault.{OrMemory, integer_of};
ghost use Rattle.craft_settings.specs.Names.{flag_at};

use crate::fault::SettingsFault;
use crate::keys::{Key, Section};
use std::alloc::Global;
use toml::{Table, Value};

/// Parses the bytes.
pub(crate) fn parse(alloc: Global, bytes: &[u8]) -> Result<Table, SettingsFault>
    ensures ok { IfOk result (λ t. document bytes.now ≡ Some (table_view t)) }
    ensures refused { IfErr result (λ e. OrMemory e ((e ≡ SettingsFault.NotToml) × (document bytes.now ≡ None))) }
{
    match toml::table_from_slice(alloc, bytes) {
        Ok(table) => Ok(table),
        Err(e) => {
            if e.is_memory() {
                Err(SettingsFault::WantMemory)
            } else {
                Err(SettingsFault::NotToml)
            }
        }
    }
}

/// What stands at a key of the document's top level.
pub(crate) fn held<'a>(doc: &'a Table, name: &str) -> Option<&'a Value>
    ensures { option_map (λ v. view v.now) result ≡ get_member name.now (table_view doc.now) }
{
    doc.get(name)
}

/// The value of a key.
pub(crate) fn value<'a>(doc: &'a Table, key: Key) -> Option<&'a Value>
    ensures { option_map (λ v. view v.now) result ≡ value_at (table_view doc.now) key }
{
    let row = key.row();
    match row.section {
        Section::Top => held(doc, row.name),
        section => match held(doc, section.name()) {
            Some(table) => table.get(row.name),
            None => None,
        },
    }
}

/// The integer of a key.
pub(crate) fn integer(doc: &Table, key: Key) -> Option<i64>
    ensures { result ≡ integer_of (table_view doc.now) (row_of key) }
{
    match value(doc, key) {
        Some(value) => value.as_integer(),
        None => None,
    }
}

/// The flag of a key, which is false where it is absent.
#[tactic(auto, unfolding(crate::specs::Names::flag_of))]
pub(crate) fn flag_at(doc: &Table, key: Key) -> bool
    ensures { result ≡ flag_at (table_view doc.now) key }
{
    match value(doc, key) {
        Some(value) => value.as_bool().unwrap_or(false),
        None => false,
    }
}

/// Whether something else than a table stands at the name of a table.
pub(crate) fn is_shut(doc: &Table, section: Section) -> bool
    ensures { result ≡ is_shut (table_view doc.now) section }
{
    match section {
        Section::Top => false,
        section => match held(doc, section.name()) {
            Some(value) => !value.is_table(),
            None => false,
        },
    }
}

/// Whether the base values come from the stats.
pub(crate) fn is_stats(doc: &Table) -> bool
    ensures { result ≡ is_stats (table_view doc.now) }
{
    held(doc, "base").is_none()
}

/// Whether the file is of the second version.
pub(crate) fn is_two(doc: &Table) -> bool
    ensures { result ≡ is_two (table_view doc.now) }
{
    match held(doc, "version") {
        Some(version) => version.as_integer() == Some(2),
        None => false,
    }
}
