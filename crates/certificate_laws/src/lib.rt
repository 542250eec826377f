//! What a certificate of the best macro is, which line of a text is the first that breaks a rule, and why a certificate
//! is enough. A function's contract is the law; its body does nothing.
#![tactic(auto)]

ghost use Rattle.std.specs.Prelude.{ℕ, List, ◌≡◌};
ghost use Rattle.action_table.specs.declared.action.Action.{Action};
ghost use Rattle.craft_settings.specs.Ranges.{SettingsFields, AreSettings, IsFromTo};
ghost use Rattle.macro_order.specs.Order.{IsBest};
ghost use Rattle.certificate_text.specs.Text.{line_end, parts};
ghost use Rattle.certificate_laws.specs.Certificate.{IsCertificate, certificates_are_sound};
ghost use Rattle.certificate_laws.specs.Lines.{opening, Reads, IsFirstFault};
ghost use Rattle.certificate_laws.specs.Made.{IsMade};
ghost use Rattle.certificate_laws.specs.Example.{small_craft, small_best, small_text};
ghost use Rattle.certificate_laws.specs.Example.{limited_text, late_text, dominated_text, worse_text, short_text, unended_text};

/// The macro of a certificate is the best: of a valid certificate, and so of each text of one.
pub fn sound_law()
    ensures valid { certificates_are_sound }
    ensures text { (g : SettingsFields) (bytes : List ℕ) (actions : List Action) →
        AreSettings g → IsCertificate g bytes actions → IsBest g actions }
{}

/// Bytes are a certificate exactly where each line obeys the rule of its place, to the end.
pub fn reading_law()
    ensures read { (g : SettingsFields) (bytes : List ℕ) (actions : List Action) →
        IsCertificate g bytes actions → Reads g opening (parts line_end bytes) actions }
    ensures made { (g : SettingsFields) (bytes : List ℕ) (actions : List Action) →
        Reads g opening (parts line_end bytes) actions → IsCertificate g bytes actions }
{}

/// Bytes are a certificate of one macro at most, or have one first line at most that breaks a rule, and not both.
pub fn once_law()
    ensures one { (g : SettingsFields) (bytes : List ℕ) (m n : List Action) →
        IsCertificate g bytes m → IsCertificate g bytes n → m ≡ n }
    ensures fault { (g : SettingsFields) (bytes : List ℕ) (m n : ℕ) →
        IsFirstFault g bytes m → IsFirstFault g bytes n → m ≡ n }
    ensures apart { (g : SettingsFields) (bytes : List ℕ) (m : List Action) (n : ℕ) →
        IsCertificate g bytes m → IsFirstFault g bytes n → ⊥ }
{}

/// The certificate that is made for the best macro is one, and there is one text of it at most.
pub fn made_law()
    ensures certificate { (g : SettingsFields) (grain : ℕ) (actions : List Action) (bytes : List ℕ) →
        AreSettings g → IsFromTo 1 64 grain → IsBest g actions → IsMade g grain actions bytes → IsCertificate g bytes actions }
    ensures one { (g : SettingsFields) (grain : ℕ) (actions : List Action) (a b : List ℕ) →
        IsMade g grain actions a → IsMade g grain actions b → a ≡ b }
{}

/// A small craft has a certificate, and each of these texts breaks a rule first at this line.
pub fn example_law()
    ensures certificate { IsCertificate small_craft small_text small_best }
    ensures limited { IsFirstFault small_craft limited_text 4 }
    ensures late { IsFirstFault small_craft late_text 4 }
    ensures dominated { IsFirstFault small_craft dominated_text 4 }
    ensures worse { IsFirstFault small_craft worse_text 6 }
    ensures short { IsFirstFault small_craft short_text 7 }
    ensures unended { IsFirstFault small_craft unended_text 7 }
{}
