// Laws of the definitions.
ghost use Rattle.std.specs.Prelude.{◌≡◌, List, ℕ};
ghost use Rattle.manifest_tree.specs.Grammar.{SpellsTree};
ghost use Rattle.manifest_tree.specs.Refusals.{IsRefusal};
ghost use Rattle.manifest_tree.specs.Tree.{Tree};
ghost use Rattle.manifest_tree.specs.declared.fault.TreeKind.{TreeKind};

/// No text spells two trees.
pub fn one_tree()
    ensures { (bytes : List ℕ) (t u : Tree) → SpellsTree bytes t → SpellsTree bytes u → t ≡ u }
{}

/// No text has two refusals, and one that spells a tree has none.
pub fn one_refusal()
    ensures one { (bytes : List ℕ) (k l : TreeKind) (m n : ℕ) → IsRefusal bytes k m
        → IsRefusal bytes l n → (k ≡ l) × (m ≡ n) }
    ensures none { (bytes : List ℕ) (t : Tree) (k : TreeKind) (n : ℕ) → SpellsTree bytes t
        → IsRefusal bytes k n → ⊥ }
{}
