ghost use Rattle.std.specs.Prelude.{◌≡◌};
ghost use Rattle.hy_ir.specs.Code.{Tree};
ghost use Rattle.hy_ir.specs.View.{tree_of};
ghost use Rattle.hy_ir.specs.declared.code.Tree.{Tree as DeclaredTree};

/// The trees that definitions compute with have one form for each form of the declared trees: each
/// is a declared tree, and no two declared trees are one of them.
pub fn trees_are_declared()
    ensures each { (t : Tree) → (x : DeclaredTree) × (tree_of x ≡ t) }
    ensures once { (x y : DeclaredTree) → tree_of x ≡ tree_of y → x ≡ y }
{}
