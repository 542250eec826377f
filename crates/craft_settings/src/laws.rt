// Laws of the settings. A function's contract is the law; its body does nothing.
ghost use Rattle.std.specs.Prelude.{◌≡◌, ◌↔◌, ℕ, List, None};
ghost use Rattle.craft_settings.specs.Accepts.{IsAccepted, HasFault};
ghost use Rattle.craft_settings.specs.Reading.{file_fault};

/// A file without a fault is accepted with some settings, and no other file is. So none being accepted and some fault
/// are one thing.
pub fn accepted_law()
    ensures accepted { (bytes : List ℕ) → (file_fault bytes ≡ None) ↔ IsAccepted bytes }
    ensures refused { (bytes : List ℕ) → HasFault bytes ↔ (IsAccepted bytes → ⊥) }
{}
