//! Laws of the definitions, in the words of their subject.

ghost use Rattle.std.specs.Prelude.{◌≡◌, ◌≢◌, ◌↔◌, [], ℕ, List, Ok, Err, Result};
ghost use Rattle.serde_json.specs.Data.{Data, string, array, item, no_items, Items};
ghost use Rattle.upd_text.specs.declared.fault.NameFault.{NameFault};
ghost use Rattle.artifact_meta.specs.Meta.{text, texts, type_info_of};
ghost use Rattle.artifact_meta.specs.Header.{header_info_of};
ghost use Rattle.artifact_meta.specs.Reading.{list_of, AreRead, HasFirstFault};
ghost use Rattle.artifact_meta.specs.declared.fault.Field.{Field};
ghost use Rattle.artifact_meta.specs.declared.fault.MetaFault.{MetaFault};

/// A list of texts is all its items read in order, or the fault of the first that can't be read;
/// one string stands for a list of one.
#[tactic(auto, using(crate::proofs::ReadingLemmas::list_rules))]
pub fn lists_are_read_in_order()
    ensures read { (reads : List ℕ → Result (List ℕ) NameFault) (field : Field) (items : Items) (found : List (List ℕ))
        → (texts reads field (array items) ≡ Ok found) ↔ AreRead (text reads field) (list_of items) found }
    ensures fault { (reads : List ℕ → Result (List ℕ) NameFault) (field : Field) (items : Items) (fault : MetaFault)
        → (texts reads field (array items) ≡ Err fault) ↔ HasFirstFault (text reads field) (list_of items) fault }
    ensures one { (reads : List ℕ → Result (List ℕ) NameFault) (field : Field) (bytes : List ℕ)
        → texts reads field (string bytes) ≡ texts reads field (array (item (string bytes) no_items)) }
{}

/// No file by itself has the fault that the types differ.
#[tactic(auto, using(crate::proofs::NoDiffer::header_never_differs, crate::proofs::NoDiffer::info_never_differs))]
pub fn no_reader_compares_types()
    ensures header { (bytes : List ℕ) → header_info_of bytes ≢ Err MetaFault.TypeDiffers }
    ensures info { (bytes : List ℕ) → type_info_of bytes ≢ Err MetaFault.TypeDiffers }
{}
