//! What the definitions of trees mean. The functions do nothing: their contracts are the laws.
ghost use Rattle.std.specs.Prelude.{◌≡◌, ℕ, List, Some, if◌then◌else◌};
ghost use Rattle.std.specs.Str.{bytes_eq};
ghost use Rattle.file_tree.specs.Names.{IsName};
ghost use Rattle.file_tree.specs.Tree.{Tree, Entries, look, set, IsTree, AreEntries};

/// A law: a name stands for the tree that it was set to last, and every other name for what it stood for.
pub fn names_stand_for_trees()
    ensures { (es : Entries) (set_name : List ℕ) (tree : Tree) (name : List ℕ)
        → look (set es set_name tree) name ≡ (if bytes_eq name set_name then Some tree else look es name) }
{}

/// A law: a directory that is well formed stays so when a name is set to a tree that is.
#[tactic(auto, using(crate::proofs::Places::well_formed_set))]
pub fn directories_stay_well_formed()
    ensures { (es : Entries) (name : List ℕ) (tree : Tree) → AreEntries es → IsName name → IsTree tree → AreEntries (set es name tree) }
{}
