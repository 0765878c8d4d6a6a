ghost use Rattle.std.specs.Prelude.{◌≡◌, ◌++◌, [], ◌∷◌, OnOk};
ghost use Rattle.code_writing.specs.Ends.{builder_of};
ghost use Rattle.hy_ir.specs.View.{tree_of};
ghost use Rattle.lowered_code.specs.Builder.{beginning, operation_into, with_registers, within_into};

use crate::registers::{fresh, fresh_all};
use hy_ir::{Op, Part, Tree};
use hy_terms::Memory;
use sqlite_items::Items;
use std::alloc::Global;
use std::mem;

/// What is written of a tree: its parts, the first register that isn't in use, and the registers of
/// the values that are done.
#[derive(Drop)]
pub struct Builder {
    pub alloc: Global,
    pub parts: Items<Part>,
    pub next: u32,
    pub registers: Items<u32>,
}

impl Builder {
    /// Nothing, where this is the first register that isn't in use.
    pub fn new(alloc: Global, next: u32) -> Builder
        ensures { builder_of result ≡ beginning next }
    {
        Builder {
            alloc,
            parts: Items::new(alloc),
            next,
            registers: Items::new(alloc),
        }
    }

    /// Where its memory comes from.
    pub fn allocator(&self) -> Global {
        self.alloc
    }

    /// The first register that isn't in use.
    pub fn next(&self) -> u32
        ensures { result ≡ self.now.next }
    {
        self.next
    }

    /// The registers below this one are in use.
    pub fn go_on_from(&mut self, next: u32)
        ensures { builder_of self.new ≡ record (builder_of self.old) { next = next } }
    {
        self.next = next;
    }

    /// The registers of the values that are done.
    pub fn registers(&self) -> &[u32]
        ensures { result.now ≡ self.now.registers }
    {
        self.registers.as_slice()
    }

    /// Puts other values in the place of those that are done, and gives these.
    pub fn replace(&mut self, registers: Items<u32>) -> Items<u32>
        ensures values { result ≡ self.old.registers }
        ensures builder { builder_of self.new ≡ with_registers registers (builder_of self.old) }
    {
        mem::replace(&mut self.registers, registers)
    }

    /// Puts other values in the place of those that are done.
    pub fn restore(&mut self, registers: Items<u32>)
        ensures { builder_of self.new ≡ with_registers registers (builder_of self.old) }
    {
        self.registers = registers;
    }

    /// Takes the values that are done.
    pub fn take(&mut self) -> Items<u32>
        ensures values { result ≡ self.old.registers }
        ensures builder { builder_of self.new ≡ with_registers [] (builder_of self.old) }
    {
        self.replace(Items::new(self.alloc))
    }

    /// One more value is done, which a register holds.
    pub fn give(&mut self, register: u32) -> Result<(), Memory>
        ensures { OnOk result (builder_of self.new
            ≡ with_registers (self.old.registers ++ register ∷ []) (builder_of self.old)) }
    {
        self.registers.push(register)?;
        Ok(())
    }

    /// An operation, whose out is the next register. Its value is done, behind those that are kept.
    #[tactic(auto, using(crate::proofs::PartLemmas::done_more))]
    pub fn carry_out(&mut self, kept: Items<u32>, op: Op) -> Result<(), Memory>
        ensures { OnOk result (builder_of self.new
            ≡ operation_into (λ out. op) kept (builder_of self.old)) }
    {
        let out = fresh(&mut self.next)?;
        self.parts.push(Part::Do(op))?;
        self.registers = kept;
        self.registers.push(out)?;
        Ok(())
    }

    /// An inner tree, which gives so many values.
    #[tactic(auto, using(crate::proofs::PartLemmas::within_more))]
    pub fn carry_out_within(&mut self, inner: Tree, values: usize) -> Result<(), Memory>
        ensures { OnOk result (builder_of self.new
            ≡ within_into (tree_of inner) values (builder_of self.old)) }
    {
        let outs = fresh_all(self.alloc, &mut self.next, values)?;
        let copies = Items::from_slice(self.alloc, outs.as_slice())?;
        self.parts.push(Part::Within { outs, inner })?;
        self.registers.append(copies)?;
        Ok(())
    }
}
