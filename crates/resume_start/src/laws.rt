// Laws of crafts that are resumed. A function's contract is the law; its body does nothing.
ghost use Rattle.std.specs.Prelude.{List};
ghost use Rattle.action_table.specs.declared.action.Action.{Action};
ghost use Rattle.craft_settings.specs.Ranges.{SettingsFields};
ghost use Rattle.resume_start.specs.Done.{IsUnderway, IsUnfit};
ghost use Rattle.resume_start.specs.declared.underway.Unfit.{Unfit as Reason};

/// Where a craft goes on after some actions, there is no reason why it doesn't.
pub fn unfit_law()
    ensures { (g : SettingsFields) (done : List Action) (reason : Reason) → IsUnfit g done reason → IsUnderway g done → ⊥ }
{}
