/// A kind of cells of the area, of which contracts speak. No value tells one.
pub trait CellKind {
    ghost use Rattle.std.specs.Prelude.{ℕ};

    ghost is_cell: { ℕ → Type 0 };
}
