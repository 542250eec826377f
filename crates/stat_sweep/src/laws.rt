// Laws of base quality. A function's contract is the law; its body does nothing.
ghost use Rattle.std.specs.Prelude.{ℕ, ◌≤◌, ◌↔◌};
ghost use Rattle.craft_settings.specs.Ranges.{SettingsFields};
ghost use Rattle.macro_order.specs.Order.{NothingCompletes};
ghost use Rattle.stat_sweep.specs.Bases.{with_base, IsEnough, LosesNoQuality};

/// With more base quality the same actions are legal, and after each of them the state differs in quality alone and
/// has no less of it.
pub fn quality_law()
    ensures { (g : SettingsFields) (less more : ℕ) → less ≤ more → LosesNoQuality g less more }
{}

/// A base quality that is enough passes that on to each greater one.
pub fn enough_law()
    ensures { (g : SettingsFields) (less more : ℕ) → less ≤ more → IsEnough g less → IsEnough g more }
{}

/// Whether some macro completes the craft doesn't depend on the base quality.
pub fn completing_law()
    ensures { (g : SettingsFields) (base : ℕ) → NothingCompletes (with_base g base) ↔ NothingCompletes g }
{}
