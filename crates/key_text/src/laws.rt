//! Laws of the definitions, in the words of their subject.

ghost use Rattle.std.specs.Prelude.{◌≡◌, ℕ, List};
ghost use Rattle.key_text.specs.Keys.{SpellsKeys, IsWrongKeys};
ghost use Rattle.key_text.specs.declared.fault.KeyFault.{KeyFault};

/// A text spells one list of keys or is at fault in one way, and never both.
pub fn texts_have_one_reading()
    ensures keys { (text : List ℕ) (a b : List (List ℕ)) → SpellsKeys text a → SpellsKeys text b → a ≡ b }
    ensures faults { (text : List ℕ) (f g : KeyFault) → IsWrongKeys text f → IsWrongKeys text g → f ≡ g }
    ensures apart { (text : List ℕ) (keys : List (List ℕ)) (fault : KeyFault) → SpellsKeys text keys → ¬ (IsWrongKeys text fault) }
{}
