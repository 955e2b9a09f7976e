//! Laws of the definitions, in the words of their subject.

ghost use Rattle.std.specs.Prelude.{◌≡◌, ◌↔◌, ℕ, List, true, None, Ok, Err};
ghost use Rattle.std.specs.List.{All};
ghost use Rattle.std.specs.Result.{is_ok};
ghost use Rattle.io_model.specs.Source.{Tree};
ghost use Rattle.provides_map.specs.Pairs.{Pairs};
ghost use Rattle.admit.specs.Admit.{head_plan_of, plan_of};
ghost use Rattle.admit.specs.Causes.{head_causes, causes, IsFirst};
ghost use Rattle.admit.specs.Differing.{listed_of, in_payload, in_rest, first_differing};
ghost use Rattle.admit.specs.declared.admitted.Admitted.{Admitted};
ghost use Rattle.admit.specs.declared.refusal.Refusal.{Refusal};
ghost use Rattle.admit.specs.Places.{spelled, place_of, is_allowed, IsSpelled};
ghost use Rattle.admit.specs.declared.place.TreePlace.{TreePlace};

/// A path that a tree may have is the spelling of its place, and such a place has a spelling.
pub fn places_are_spelled()
    ensures { (path : List ℕ) → is_allowed (place_of path) ≡ true → IsSpelled (place_of path) × (path ≡ spelled (place_of path)) }
{}

/// What is spelled as a place stands there.
pub fn spelled_places()
    ensures { (place : TreePlace) → IsSpelled place → place_of (spelled place) ≡ place }
{}

/// What a plan lists is right: outside the payloads once the tree's head was admitted, and
/// everywhere once the tree was.
#[tactic(auto, using(crate::proofs::Right::right_sums))]
pub fn listed_sums_are_right()
    ensures rest { (t : Tree) (type : List ℕ) (held : Pairs) (plan : Admitted) → head_plan_of t type held ≡ Ok plan
        → first_differing in_rest t (listed_of plan) ≡ None }
    ensures head { (t : Tree) (type : List ℕ) (held : Pairs) (plan : Admitted) → plan_of t type held ≡ Ok plan
        → head_plan_of t type held ≡ Ok plan }
    ensures payloads { (t : Tree) (type : List ℕ) (held : Pairs) (plan : Admitted) → plan_of t type held ≡ Ok plan
        → first_differing in_payload t (listed_of plan) ≡ None }
{}

/// A tree is refused with what the first row of the table of causes tells that tells anything, and
/// taken exactly where no row does. The head of a tree is refused by all rows but the last.
pub fn the_first_cause_is_told()
    ensures head { (t : Tree) (type : List ℕ) (held : Pairs) (r : Refusal)
        → (head_plan_of t type held ≡ Err r) ↔ IsFirst (head_causes t type held) r }
    ensures refused { (t : Tree) (type : List ℕ) (held : Pairs) (r : Refusal)
        → (plan_of t type held ≡ Err r) ↔ IsFirst (causes t type held) r }
    ensures taken { (t : Tree) (type : List ℕ) (held : Pairs)
        → (is_ok (plan_of t type held) ≡ true) ↔ All (λ row. row ≡ None) (causes t type held) }
{}
