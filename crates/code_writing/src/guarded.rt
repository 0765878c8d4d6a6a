ghost use Rattle.std.specs.Prelude.{◌≡◌, ◌++◌, [], ◌∷◌, OnOk};
ghost use Rattle.lowered_code.specs.Builder.{first};
ghost use Rattle.lowered_code.specs.LoweredGuards.{guard_with, operation_in};

use crate::registers::{fresh, register_at};
use hy_ir::{Guard, Op};
use hy_terms::Memory;
use sqlite_items::Items;
use std::alloc::Global;
use std::marker::Model;
use std::mem;

/// The operations of a guard, the first register that isn't in use, and the registers of the values
/// that are done.
#[derive(Drop)]
pub struct Guarded {
    alloc: Global,
    operations: Items<Op>,
    next: u32,
    registers: Items<u32>,
}

impl Model for Guarded {
    ghost use Rattle.lowered_code.specs.LoweredGuards.{Guarded as Written};

    ghost Value = { Written };

    ghost view = { λ g. record {
      operations = g.operations;
      next = g.next;
      registers = g.registers;
    } };
}

impl Guarded {
    /// None, where this is the first register that isn't in use.
    pub fn new(alloc: Global, next: u32) -> Guarded
        ensures { result ≡ record { operations = []; next = next; registers = [] } }
    {
        Guarded {
            alloc,
            operations: Items::new(alloc),
            next,
            registers: Items::new(alloc),
        }
    }

    /// The first register that isn't in use.
    pub fn next(&self) -> u32
        ensures { result ≡ self.now.next }
    {
        self.next
    }

    /// Takes the values that are done.
    pub fn take(&mut self) -> Items<u32>
        ensures values { result ≡ self.old.registers }
        ensures guarded { self.new ≡ guard_with [] self.old }
    {
        mem::replace(&mut self.registers, Items::new(self.alloc))
    }

    /// Puts other values in the place of those that are done, and gives these.
    pub fn replace(&mut self, registers: Items<u32>) -> Items<u32>
        ensures values { result ≡ self.old.registers }
        ensures guarded { self.new ≡ guard_with registers self.old }
    {
        mem::replace(&mut self.registers, registers)
    }

    /// One more value is done, which a register holds.
    pub fn give(&mut self, register: u32) -> Result<(), Memory>
        ensures { OnOk result (self.new
            ≡ guard_with (self.old.registers ++ register ∷ []) self.old) }
    {
        self.registers.push(register)?;
        Ok(())
    }

    /// An operation, whose out is the next register. Its value is done, behind those that are kept.
    pub fn carry_out(&mut self, kept: Items<u32>, op: Op) -> Result<(), Memory>
        ensures { OnOk result (self.new ≡ operation_in (λ out. op) kept self.old) }
    {
        let out = fresh(&mut self.next)?;
        self.operations.push(op)?;
        self.registers = kept;
        self.registers.push(out)?;
        Ok(())
    }

    /// The guard with these operations, whose value is the first that is done.
    pub fn into_guard(self) -> Guard
        ensures { result ≡ record {
          operations = self.operations;
          register = first self.registers;
        } }
    {
        let Guarded {
            alloc: _,
            operations,
            next: _,
            registers,
        } = self;
        let register = register_at(registers.as_slice(), 0);
        Guard {
            operations,
            register,
        }
    }
}
