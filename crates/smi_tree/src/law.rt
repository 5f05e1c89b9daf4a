//! What a tree file is, line by line, beside the function that [`Tree::read`](crate::Tree::read) computes.

ghost use Rattle.std.specs.Prelude.{ℕ, List, Ok, Err, length, ◌≡◌, ◌<◌, ◌≤◌, ◌⊎◌, ◌↔◌};
ghost use Rattle.smi_base.specs.declared.trees.TheConstants.{MOST_BYTES_OF_A_FILE};
ghost use Rattle.smi_tree.specs.declared.fault.TreeFault.TheVariants.{Line};
ghost use Rattle.smi_tree.specs.Hierarchy.{Hierarchy};
ghost use Rattle.smi_tree.specs.File.{tree_of};
ghost use Rattle.smi_tree.specs.TreeFile.{IsTreeFile, HasFaultyLine, IsIncomplete};

/// States that the files that are accepted are the tree files, each with the hierarchy that its lines make.
pub fn tree_files_are_accepted()
    ensures { (bytes : List ℕ) (h : Hierarchy) → (tree_of bytes ≡ Ok h) ↔ IsTreeFile bytes h }
{}

/// States that a fault with a line is that of the first line that is not lawful over the lines above it.
pub fn the_first_faulty_line_is_told()
    ensures { (bytes : List ℕ) (number code : ℕ) → 1 ≤ number → tree_of bytes ≡ Err (Line number code)
        → HasFaultyLine bytes number code }
{}

/// States that a fault of the whole file is that it is too long, or that every line is lawful and yet it is no tree.
pub fn a_fault_without_a_line_is_the_files()
    ensures { (bytes : List ℕ) (code : ℕ) → tree_of bytes ≡ Err (Line 0 code) →
        ((code ≡ 11) × (MOST_BYTES_OF_A_FILE < length bytes)) ⊎ ((code ≡ 12) × IsIncomplete bytes) }
{}
