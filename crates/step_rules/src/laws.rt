// Laws of the rules. A function's contract is the law; its body does nothing.
ghost use Rattle.std.specs.Prelude.{◌/◌, IsTrue};
ghost use Rattle.action_table.specs.declared.action.Action.{Action};
ghost use Rattle.craft_state.specs.Craft.{StateFields};
ghost use Rattle.craft_settings.specs.Ranges.{SettingsFields, AreSettings};
ghost use Rattle.step_rules.specs.Legality.{start_of, is_legal, IsAllowedNow};
ghost use Rattle.step_rules.specs.Measure.{measure};
ghost use Rattle.step_rules.specs.declared.legality.TheConstants.{MOST_STEPS};
ghost use Rattle.step_rules.specs.Run.{AreAtMost};

/// An action is legal exactly where none of the ten reasons applies.
pub fn legal_law()
    ensures only { (g : SettingsFields) (s : StateFields) (action : Action) → IsTrue (is_legal g s action) → IsAllowedNow g s action }
    ensures always { (g : SettingsFields) (s : StateFields) (action : Action) → IsAllowedNow g s action → IsTrue (is_legal g s action) }
{}

/// No legal macro has more steps than a quarter of the start's measure, and none has more than `MOST_STEPS`.
pub fn length_law()
    ensures by_measure { (g : SettingsFields) → AreSettings g → AreAtMost g (measure (start_of g) / 4) }
    ensures by_number { (g : SettingsFields) → AreSettings g → AreAtMost g MOST_STEPS }
{}
