ghost use Rattle.std.specs.Prelude.{◌≡◌};
ghost use Rattle.hy_core.specs.Syntax.{Syntax, syntax_of};
ghost use Rattle.hy_core.specs.declared.tree.Expr.{Expr};

/// The syntax that definitions compute with has one form for each form of the declared trees: each
/// syntax is a declared tree, and no two declared trees are one syntax.
pub fn trees_are_declared()
    ensures each { (s : Syntax) → (x : Expr) × (syntax_of x ≡ s) }
    ensures once { (x y : Expr) → syntax_of x ≡ syntax_of y → x ≡ y }
{}
