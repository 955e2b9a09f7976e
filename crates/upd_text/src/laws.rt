//! Laws of the definitions, in the words of their subject.

ghost use Rattle.std.specs.Prelude.{◌≡◌, ◌↔◌, ◌<◌, ◌^◌, ℕ, List, Some, decimal};
ghost use Rattle.upd_text.specs.Text.{IsName, IsValue, decimal_of};
ghost use Rattle.upd_text.specs.Forms.{IsText, Spells};

/// What a name is and what a value is, and that each name is a value.
#[tactic(auto, using(crate::proofs::FormLemmas::name_forms))]
pub fn names_and_values()
    ensures names { (bytes : List ℕ) → IsName bytes ↔ IsText 1 128 bytes }
    ensures values { (bytes : List ℕ) → IsValue bytes ↔ IsText 0 1024 bytes }
    ensures both { (bytes : List ℕ) → IsName bytes → IsValue bytes }
{}

/// Which bytes are read as which number, and that the digits of a number are read as it.
#[tactic(auto, using(crate::proofs::FormLemmas::number_forms))]
pub fn numbers_round_trip()
    ensures spelled { (bytes : List ℕ) (n : ℕ) → (decimal_of bytes ≡ Some n) ↔ Spells bytes n }
    ensures back { (n : ℕ) → n < 2 ^ 64 → decimal_of (decimal n) ≡ Some n }
{}
