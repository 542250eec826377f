// The keys that the list doesn't have.
ghost use Rattle.std.specs.Prelude.{◌≡◌, Option, Some, None, option_map, option_and_then, IfOk, IfErr, OnOk};
ghost use Rattle.toml.specs.Data.{as_table};
ghost use Rattle.toml.specs.View.{table_view};
ghost use Rattle.craft_settings.specs.Document.{section_data};
ghost use Rattle.craft_settings.specs.Fault.{OrMemory};
ghost use Rattle.craft_settings.specs.Keys.{row_of, places, path};
ghost use Rattle.craft_settings.specs.Unknown.{section_number, is_row, is_known, least_unknown, unknown_in, unknown_path, unknown_fault};

use crate::document::held;
use crate::fault::{KeyText, SettingsFault};
use crate::keys::{KEYS, Key, Section};
use action_table::WantMemory;
use std::alloc::Global;
use toml::Table;

const SECTIONS: [Section; 5] = [
    Section::Top,
    Section::Crafter,
    Section::Recipe,
    Section::Base,
    Section::Actions,
];

impl Section {
    fn number(self) -> u8
        ensures { result ≡ section_number self }
    {
        self as u8
    }
}

fn is_key(section: Section, name: &str, key: Key) -> bool
    ensures { result ≡ is_row section name.now (row_of key) }
{
    let row = key.row();
    row.section.number() == section.number() && row.name == name
}

/// Whether the list of the version has the key.
#[tactic(auto, unfolding(crate::specs::Unknown::is_known))]
fn is_known(two: bool, section: Section, name: &str) -> bool
    ensures { result ≡ is_known two section name.now }
{
    for place in 0..KEYS {
        let key = Key::new(place);
        if key.is_in(two) && is_key(section, name, key) {
            return true;
        }
    }
    false
}

/// The least unknown key by bytes: a table gives its keys in that order.
fn least_unknown<'a>(two: bool, section: Section, table: &'a Table) -> Option<&'a str>
    ensures { option_map (λ s. s.now) result ≡ least_unknown (is_known two section) (table_view table.now) }
{
    for (key, _value) in table {
        if !is_known(two, section, key.as_str()) {
            return Some(key.as_str());
        }
    }
    None
}

fn table_in<'a>(doc: &'a Table, section: Section) -> Option<&'a Table>
    ensures { option_map (λ t. table_view t.now) result ≡ option_and_then as_table (section_data (table_view doc.now) section) }
{
    match section {
        Section::Top => Some(doc),
        section => match held(doc, section.name()) {
            Some(value) => value.as_table(),
            None => None,
        },
    }
}

fn path(alloc: Global, section: Section, name: &str) -> Result<KeyText, WantMemory>
    ensures { IfOk result (λ k. k ≡ path section name.now) }
{
    match section {
        Section::Top => Ok(KeyText::new(String::from_str(alloc, name)?)),
        section => {
            let mut text = String::from_str(alloc, section.name())?;
            text.push_str(".")?;
            text.push_str(name)?;
            Ok(KeyText::new(text))
        }
    }
}

/// The path of the least unknown key of a table.
#[tactic(auto, unfolding(crate::specs::Unknown::unknown_in))]
fn unknown_in(
    alloc: Global,
    doc: &Table,
    two: bool,
    section: Section,
) -> Result<Option<KeyText>, WantMemory>
    ensures { IfOk result (λ p. p ≡ unknown_in (is_known two) (table_view doc.now) section) }
{
    let Some(table) = table_in(doc, section) else {
        return Ok(None);
    };
    match least_unknown(two, section, table) {
        Some(name) => Ok(Some(path(alloc, section, name)?)),
        None => Ok(None),
    }
}

/// The path of the unknown key that is told.
#[tactic(auto, unfolding(crate::specs::Unknown::unknown_path))]
fn unknown_path(alloc: Global, doc: &Table, two: bool) -> Result<Option<KeyText>, WantMemory>
    ensures { IfOk result (λ p. p ≡ unknown_path (is_known two) (table_view doc.now)) }
{
    for section in &SECTIONS {
        if let Some(path) = unknown_in(alloc, doc, two, *section)? {
            return Ok(Some(path));
        }
    }
    Ok(None)
}

/// Refuses a document with an unknown key.
#[tactic(auto, unfolding(crate::specs::Unknown::unknown_fault))]
pub(crate) fn check_keys(alloc: Global, doc: &Table, two: bool) -> Result<(), SettingsFault>
    ensures ok { OnOk result (unknown_fault two (table_view doc.now) ≡ None) }
    ensures err { IfErr result (λ e. OrMemory e (unknown_fault two (table_view doc.now) ≡ Some e)) }
{
    match unknown_path(alloc, doc, two)? {
        Some(path) => Err(SettingsFault::UnknownKey { path }),
        None => Ok(()),
    }
}
