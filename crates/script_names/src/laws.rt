//! Laws of the definitions, in the words of their subject.

ghost use Rattle.std.specs.Prelude.{◌≡◌, ◌⊎◌, ◌↔◌, ◌∷◌, ℕ, List, Some, Contains};
ghost use Rattle.std.specs.BTreeSet.{insert_key};
ghost use Rattle.upd_text.specs.Order.{byte_cmp};
ghost use Rattle.script_names.specs.Scripts.{place_of, due_of};
ghost use Rattle.script_names.specs.Form.{Says};
ghost use Rattle.script_names.specs.declared.place.Place.{Place};

/// The reader answers the place that a name says, exactly where the name is of the form.
pub fn names_are_texts()
    ensures { (name : List ℕ) (place : Place) → (place_of name ≡ Some place) ↔ Says name place }
{}

/// The byte order of two names of one place is that of their two digits and of what follows these.
pub fn digits_come_first()
    ensures { (place : Place) (a b : List ℕ) (x : Says a place) (y : Says b place)
        → byte_cmp a b ≡ byte_cmp (x.tens ∷ x.ones ∷ x.tail) (y.tens ∷ y.ones ∷ y.tail) }
{}

/// A name of a list is due at a place exactly where it says this place.
pub fn names_are_due_where_they_say()
    ensures { (place : Place) (names : List (List ℕ)) (name : List ℕ)
        → Contains (due_of place names) name ↔ (Contains names name × Says name place) }
{}

/// A list to which a name is added holds exactly that name and those that it held.
pub fn added_names_are_held()
    ensures { (names : List (List ℕ)) (added name : List ℕ)
        → Contains (insert_key byte_cmp names added) name ↔ ((added ≡ name) ⊎ Contains names name) }
{}
