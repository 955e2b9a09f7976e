//! Laws of the definitions, in the words of their subject.

ghost use Rattle.std.specs.Prelude.{◌≡◌, ◌↔◌, ℕ, List, length, Ok, Err, Some, IsSome};
ghost use Rattle.std.specs.List.{AllPass};
ghost use Rattle.hex.specs.Hex.{encode_lower, is_hex_digit, IsBytes};
ghost use Rattle.manifest_sums.specs.Manifest.{manifest_of, sum_of};
ghost use Rattle.manifest_sums.specs.Spelling.{SpellsSum, IsManifest, IsFirstFault};
ghost use Rattle.manifest_sums.specs.declared.manifest.Line.{Line};
ghost use Rattle.manifest_sums.specs.declared.manifest.ManifestFault.{ManifestFault};

/// The reader answers the lines that the bytes spell, exactly where they are a manifest, and else
/// the first fault, by line and kind.
pub fn manifests_are_texts()
    ensures read { (bytes : List ℕ) (lines : List Line) → (manifest_of bytes ≡ Ok lines) ↔ IsManifest bytes lines }
    ensures refused { (bytes : List ℕ) (fault : ManifestFault) → (manifest_of bytes ≡ Err fault) ↔ IsFirstFault bytes fault }
{}

/// Which digits spell which sum, that 64 digits of either case spell one, and that a sum's own
/// digits spell it.
pub fn sums_are_digits()
    ensures spelled { (digits sum : List ℕ) → (sum_of digits ≡ Some sum) ↔ SpellsSum digits sum }
    ensures readable { (digits : List ℕ) → IsSome (sum_of digits) ↔ ((length digits ≡ 64) × AllPass is_hex_digit digits) }
    ensures back { (sum : List ℕ) → length sum ≡ 32 → IsBytes sum → sum_of (encode_lower sum) ≡ Some sum }
{}
