//! Laws of the definitions, in the words of their subject.

ghost use Rattle.std.specs.Prelude.{◌≡◌, ℕ, List, None, Ok};
ghost use Rattle.io_model.specs.Source.{Tree};
ghost use Rattle.io_model.specs.Source.Content.{Told};
ghost use Rattle.provides_map.specs.Pairs.{Pairs};
ghost use Rattle.admit.specs.IsOf.{IsOf};
ghost use Rattle.admit.specs.Admit.{head_plan_of, plan_of};
ghost use Rattle.admit.specs.Differing.{listed_of, in_payload, first_differing};
ghost use Rattle.admit.specs.declared.admitted.Admitted.{Admitted};
ghost use Rattle.work_folder.specs.Rows.{copied_of};
ghost use Rattle.work_folder.specs.Prepare.{first_wrong};

/// Once a told tree's head was admitted, the first copied file that differs is the first payload's
/// file that does.
pub fn only_payloads_differ()
    ensures { (t : Tree) (type : List ℕ) (held : Pairs) (plan : Admitted) → IsOf (Told t) plan → head_plan_of t type held ≡ Ok plan
        → first_wrong t (copied_of plan) ≡ first_differing in_payload t (listed_of plan) }
{}

/// Once a told tree was admitted, no copied file differs.
pub fn right_sums_never_differ()
    ensures { (t : Tree) (type : List ℕ) (held : Pairs) (plan : Admitted) → IsOf (Told t) plan → plan_of t type held ≡ Ok plan
        → first_wrong t (copied_of plan) ≡ None }
{}
