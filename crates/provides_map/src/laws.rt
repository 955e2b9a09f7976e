ghost use Rattle.std.specs.Prelude.{◌≡◌, ◌≢◌, ◌↔◌, ◌++◌, ℕ, List, Some, None, IsTrue, All, codes};
ghost use Rattle.upd_text.specs.Text.{IsName};
ghost use Rattle.provides_map.specs.Pairs.{Pairs, IsMap, get, put};
ghost use Rattle.provides_map.specs.Match.{is_match, Matches};
ghost use Rattle.provides_map.specs.After.{after, broken, first_unmet, artifact_name, artifact_group};
ghost use Rattle.provides_map.specs.ByKey.{IsCleared, IsOther, IsMet, TellsUnmet};
ghost use Rattle.provides_map.specs.declared.change.Change.{Change};
ghost use Rattle.provides_map.specs.declared.change.Want.{Want};

/// What was put at a key is there, and every other key keeps its value.
#[tactic(auto, using(crate::proofs::Puts::get_put, crate::proofs::Puts::get_other))]
pub fn provides_are_a_map()
    ensures here { (ps : Pairs) (key value : List ℕ) → get (put ps key value) key ≡ Some value }
    ensures others { (ps : Pairs) (key value other : List ℕ) → other ≢ key
        → get (put ps key value) other ≡ get ps other }
{}

/// Two maps that have the same value, or none, at each name are the same map.
#[tactic(auto, using(crate::proofs::Lookups::same_map))]
pub fn same_look_ups_same_map()
    ensures { (ps qs : Pairs) → IsMap ps → IsMap qs
        → ((key : List ℕ) → IsName key → get ps key ≡ get qs key)
        → ps ≡ qs }
{}

/// The test of a pattern decides whether the key is pieces in a row that the pattern's bytes stand for.
#[tactic(auto, using(crate::proofs::Pieces::decides_match))]
pub fn patterns_are_decided()
    ensures { (pattern key : List ℕ) → IsTrue (is_match pattern key) ↔ Matches pattern key }
{}

/// What a change leaves at each key: its name, its group, what it provides, and of all other keys
/// what was held, unless it is cleared.
#[tactic(auto, using(crate::proofs::Effects::change_rules))]
pub fn after_by_key()
    ensures name { (held : Pairs) (change : Change)
        → get (after held change) artifact_name ≡ Some change.name }
    ensures group { (held : Pairs) (change : Change) (group : List ℕ) → change.group ≡ Some group
        → get (after held change) artifact_group ≡ Some group }
    ensures provided { (held : Pairs) (change : Change) (key value : List ℕ) → IsMap change.provides → IsOther change key
        → get change.provides key ≡ Some value
        → get (after held change) key ≡ Some value }
    ensures kept { (held : Pairs) (change : Change) (key : List ℕ) → IsMap change.provides → IsOther change key
        → get change.provides key ≡ None → ¬ IsCleared change.clears key
        → get (after held change) key ≡ get held key }
    ensures cleared { (held : Pairs) (change : Change) (key : List ℕ) → IsMap change.provides → IsOther change key
        → get change.provides key ≡ None → IsCleared change.clears key
        → get (after held change) key ≡ None }
{}

/// A broken map has the marked name, and every other key keeps its value.
#[tactic(auto, using(crate::proofs::Effects::broken_name, crate::proofs::Effects::broken_other))]
pub fn broken_by_key()
    ensures name { (held : Pairs) (name : List ℕ) → get held artifact_name ≡ Some name
        → get (broken held) artifact_name ≡ Some (name ++ codes "_INCONSISTENT") }
    ensures others { (held : Pairs) (key : List ℕ) → key ≢ artifact_name
        → get (broken held) key ≡ get held key }
{}

/// With no answer all wants are met, and a key is that of the first want that isn't.
#[tactic(auto, using(crate::proofs::Wanted::tells_unmet, crate::proofs::Wanted::all_met))]
pub fn wants_are_told()
    ensures told { (wants : List Want) (type : List ℕ) (held : Pairs)
        → TellsUnmet type held wants (first_unmet wants type held) }
    ensures met { (wants : List Want) (type : List ℕ) (held : Pairs) → All (IsMet type held) wants
        → first_unmet wants type held ≡ None }
{}
