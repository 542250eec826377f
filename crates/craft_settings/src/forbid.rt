// The actions that a document forbids.
ghost use Rattle.std.specs.Prelude.{◌≡◌, ◌<◌, ℕ, Option, Some, None, IfOk, IfErr, OnOk, [], nat_lt, ◌==◌, ◌&&◌, ◌||◌};
ghost use Rattle.std.specs.Int.{bit_at};
ghost use Rattle.toml.specs.Data.{as_str};
ghost use Rattle.toml.specs.View.{view, table_view, items_view};
ghost use Rattle.action_table.specs.declared.action.Action.TheVariants.{TrainedEye};
ghost use Rattle.action_table.specs.Table.{number_of};
ghost use Rattle.craft_settings.specs.Fault.{OrMemory, first_some};
ghost use Rattle.craft_settings.specs.Names.{strings_of, with_name, names, action_of, name_fault, action_fault, is_ruled_out, lacks_eye, bit};
ghost use Rattle.craft_settings.specs.Steps.{Adds};

use crate::document::{flag_at, value};
use crate::fault::{KeyText, SettingsFault};
use crate::keys::Key;
use action_table::Action;
use std::alloc::Global;
use toml::{Table, Value};

/// Whether a version knows an action.
fn knows(two: bool, action: Action) -> bool
    ensures { result ≡ (two || nat_lt (number_of action) (number_of TrainedEye)) }
{
    two || action.number() < Action::TrainedEye.number()
}

/// The action with this key name, in this version.
fn action_of(two: bool, name: &str) -> Option<Action>
    ensures { result ≡ action_of two name.now }
{
    match Action::from_key(name) {
        Some(action) => {
            if knows(two, action) {
                Some(action)
            } else {
                None
            }
        }
        None => None,
    }
}

/// The mask, with the bit of each name added.
fn add_names(alloc: Global, two: bool, items: &[Value], start: u32) -> Result<u32, SettingsFault>
    ensures mask { IfOk result (λ mask. Adds two (strings_of (items_view items.now)) start mask) }
    ensures ok { OnOk result (first_some (name_fault two) (strings_of (items_view items.now)) ≡ None) }
    ensures err { IfErr result (λ e. OrMemory e (first_some (name_fault two) (strings_of (items_view items.now)) ≡ Some e)) }
{
    let mut mask = start;
    for item in items {
        mask = add_item(alloc, two, item, mask)?;
    }
    Ok(mask)
}

/// The mask, with the bit of the item where that is a name.
fn add_item(alloc: Global, two: bool, item: &Value, mask: u32) -> Result<u32, SettingsFault>
    ensures mask { IfOk result (λ m. Adds two (with_name (as_str (view item.now)) []) mask m) }
    ensures ok { OnOk result (first_some (name_fault two) (with_name (as_str (view item.now)) []) ≡ None) }
    ensures err { IfErr result (λ e. OrMemory e (first_some (name_fault two) (with_name (as_str (view item.now)) []) ≡ Some e)) }
{
    match item.as_str() {
        Some(name) => match action_of(two, name) {
            Some(action) => Ok(mask | 1 << action.number()),
            None => Err(unknown_action(alloc, two, name)),
        },
        None => Ok(mask),
    }
}

#[tactic(auto, unfolding(crate::specs::Names::name_fault))]
fn unknown_action(alloc: Global, two: bool, name: &str) -> SettingsFault
    requires { action_of two name.now ≡ None }
    ensures { OrMemory result (name_fault two name.now ≡ Some result) }
{
    match String::from_str(alloc, name) {
        Ok(text) => SettingsFault::UnknownAction {
            name: KeyText::new(text),
        },
        Err(_) => SettingsFault::WantMemory,
    }
}

/// The items of `actions.forbid`, none where it is absent.
#[tactic(auto, unfolding(crate::specs::Names::names_of))]
fn names(doc: &Table) -> &[Value]
    ensures { strings_of (items_view result.now) ≡ names (table_view doc.now) }
{
    match value(doc, Key::FORBID) {
        Some(value) => match value.as_array() {
            Some(items) => items.as_slice(),
            None => &[],
        },
        None => &[],
    }
}

/// The mask that forbids Trained Eye, but where the recipe of a file of the second version allows it.
fn start_mask(doc: &Table, two: bool) -> u32
    ensures { (n : ℕ) → bit_at result n ≡ bit ((n == number_of TrainedEye) && lacks_eye two (table_view doc.now)) }
{
    let allowed = two & flag_at(doc, Key::TRAINED_EYE);
    if allowed {
        0
    } else {
        1 << Action::TrainedEye.number()
    }
}

/// The mask of the forbidden actions.
pub(crate) fn forbidden(alloc: Global, doc: &Table, two: bool) -> Result<u32, SettingsFault>
    ensures mask { IfOk result (λ mask. (n : ℕ) → bit_at mask n ≡ bit (is_ruled_out two (table_view doc.now) n)) }
    ensures ok { OnOk result (action_fault two (table_view doc.now) ≡ None) }
    ensures err { IfErr result (λ e. OrMemory e (action_fault two (table_view doc.now) ≡ Some e)) }
{
    add_names(alloc, two, names(doc), start_mask(doc, two))
}
