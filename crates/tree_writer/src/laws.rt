//! Laws of the definitions, in the words of their subject.

ghost use Rattle.std.specs.Prelude.{◌≡◌, [], map, Ok};
ghost use Rattle.std.specs.Option.{unwrap_or};
ghost use Rattle.std.specs.List.Sorted.{IsStrictlySortedBy};
ghost use Rattle.upd_text.specs.Order.{byte_cmp};
ghost use Rattle.tree_writer.specs.Faults.{written_tree};
ghost use Rattle.tree_writer.specs.Files.{tree_of};
ghost use Rattle.tree_writer.specs.Plan.{IsSpec, IsAdmitted};
ghost use Rattle.tree_writer.specs.declared.spec.TreeSpec.{TreeSpec};

/// A tree that is written is admitted, and its plan says exactly what the spec says; the one refusal
/// is that of the spec's first want that isn't met.
pub fn written_trees_are_admitted()
    ensures { (spec : TreeSpec) → IsSpec spec → written_tree spec ≡ Ok (tree_of spec) → IsAdmitted spec }
{}

/// The files of a tree that is written stand in byte order of their paths, none twice.
pub fn written_trees_are_in_order()
    ensures { (spec : TreeSpec) → IsSpec spec → written_tree spec ≡ Ok (tree_of spec)
        → IsStrictlySortedBy byte_cmp (map (λ file. unwrap_or file.0 []) (tree_of spec)) }
{}
