ghost use Rattle.std.specs.Prelude.{◌≡◌, ℕ, List, IfOk};
ghost use Rattle.code_writing.specs.Ends.{builder_of, end_of, place_of};
ghost use Rattle.hy_ir.specs.Code.{Last as AnyLast, Part as AnyPart};
ghost use Rattle.hy_ir.specs.View.{last_of, tree_of};
ghost use Rattle.lowered_code.specs.Builder.{closed, opened, written_tree};

use crate::builder::Builder;
use crate::place::{Aim, End, Place};
use hy_ir::{Last, Tree};
use hy_terms::Memory;
use std::mem;

/// Where what ends a tree is written. What was written before is kept for `close`.
pub fn open(place: Place, b: &mut Builder) -> Builder
    ensures opened { builder_of result ≡ opened (place_of place) (builder_of b.old) }
    ensures kept { (wanted : ℕ) (parts : List AnyPart) (next : ℕ) (last : AnyLast)
        → closed (place_of place) wanted (builder_of b.new) parts next last
        ≡ closed (place_of place) wanted (builder_of b.old) parts next last }
{
    let mut inner = Builder::new(b.allocator(), b.next());
    match place {
        Place::Piece => {}
        Place::Inner | Place::Tail => mem::swap(&mut inner.parts, &mut b.parts),
    }
    inner
}

/// The tree that was opened ends with this last part.
#[tactic(auto, using(crate::proofs::TreeLemmas::tree_is))]
pub fn close(aim: Aim, b: &mut Builder, inner: Builder, last: Last) -> Result<End, Memory>
    ensures { IfOk result (λ end. (builder_of b.new, end_of end)
        ≡ closed (place_of aim.place) aim.wanted (builder_of b.old) (builder_of inner).parts
        inner.next (last_of last)) }
{
    let Builder {
        alloc: _,
        parts,
        next,
        registers: _,
    } = inner;
    b.next = next;
    match aim.place {
        Place::Piece => {
            b.carry_out_within(Tree { parts, last }, aim.wanted)?;
            Ok(End::Given)
        }
        Place::Inner | Place::Tail => {
            b.parts = parts;
            Ok(End::Ended(last))
        }
    }
}

/// The tree of what is written.
#[tactic(auto, using(crate::proofs::TreeLemmas::tree_is, crate::proofs::TreeLemmas::given_tree))]
pub fn write_tree(b: Builder, end: End) -> Tree
    ensures { tree_of result ≡ written_tree (builder_of b, end_of end) }
{
    let Builder {
        alloc: _,
        parts,
        next: _,
        registers,
    } = b;
    match end {
        End::Given => Tree {
            parts,
            last: Last::Give(registers),
        },
        End::Ended(last) => Tree { parts, last },
    }
}
