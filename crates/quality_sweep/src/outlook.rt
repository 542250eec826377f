// What is looked through.
use crate::ceiling::Ceiling;
use craft_settings::Settings;
use craft_state::State;

/// A craft from a state on, and a ceiling over the quality that it can still reach.
#[derive(Drop)]
pub struct Outlook<'a, C: Ceiling> {
    pub g: &'a Settings,
    pub from: &'a State,
    pub ceiling: &'a C,
}
