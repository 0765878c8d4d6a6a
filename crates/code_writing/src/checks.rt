ghost use Rattle.std.specs.Prelude.{◌≡◌, ◌+◌, ◌≤◌, [], IfOk, OnOk};
ghost use Rattle.lowered_code.specs.LoweredPatterns.{with_bind, with_cons, with_test, with_tuple};

use crate::registers::{fresh, fresh_all};
use hy_ir::Test;
use hy_terms::Memory;
use sqlite_items::Items;
use std::alloc::Global;
use std::marker::Model;

/// The tests of an arm, and the first register that isn't in use.
#[derive(Drop)]
pub struct Checks {
    alloc: Global,
    tests: Items<Test>,
    next: u32,
}

impl Model for Checks {
    ghost use Rattle.lowered_code.specs.LoweredPatterns.{Checks as Written};

    ghost Value = { Written };

    ghost view = { λ c. record { tests = c.tests; next = c.next } };
}

impl Checks {
    /// None, where this is the first register that isn't in use.
    pub fn new(alloc: Global, next: u32) -> Checks
        ensures { result ≡ record { tests = []; next = next } }
    {
        Checks {
            alloc,
            tests: Items::new(alloc),
            next,
        }
    }

    /// Where its memory comes from.
    pub fn allocator(&self) -> Global {
        self.alloc
    }

    /// The first register that isn't in use.
    pub fn next(&self) -> u32
        ensures { result ≡ self.now.next }
    {
        self.next
    }

    /// The tests.
    pub fn into_tests(self) -> Items<Test>
        ensures { result ≡ self.tests }
    {
        let Checks {
            alloc: _,
            tests,
            next: _,
        } = self;
        tests
    }

    /// A test that gives nothing.
    pub fn test(&mut self, test: Test) -> Result<(), Memory>
        ensures { OnOk result (self.new ≡ with_test test self.old) }
    {
        self.tests.push(test)?;
        Ok(())
    }

    /// A test that gives the value itself: to this register.
    pub fn bind(&mut self, from: u32) -> Result<u32, Memory>
        ensures out { IfOk result (λ out. out ≡ self.old.next) }
        ensures checks { OnOk result (self.new ≡ with_bind from self.old) }
    {
        let out = fresh(&mut self.next)?;
        self.tests.push(Test::Bind { out, from })?;
        Ok(out)
    }

    /// A test for a tuple of so many parts, which go to registers from this one on.
    pub fn tuple(&mut self, from: u32, size: usize) -> Result<u32, Memory>
        ensures out { IfOk result (λ out. out ≡ self.old.next) }
        ensures checks { OnOk result (self.new ≡ with_tuple from size self.old) }
        ensures room { OnOk result (self.old.next + size ≤ 4294967295) }
    {
        let first = self.next;
        let outs = fresh_all(self.alloc, &mut self.next, size)?;
        self.tests.push(Test::IsTuple {
            from,
            size: size as u32,
            outs,
        })?;
        Ok(first)
    }

    /// A test for a cons, whose head goes to this register, and its tail to the next.
    pub fn cons(&mut self, from: u32) -> Result<u32, Memory>
        ensures out { IfOk result (λ out. out ≡ self.old.next) }
        ensures checks { OnOk result (self.new ≡ with_cons from self.old) }
        ensures room { OnOk result (self.old.next + 1 ≤ 4294967295) }
    {
        let head = fresh(&mut self.next)?;
        let tail = fresh(&mut self.next)?;
        self.tests.push(Test::IsCons { from, head, tail })?;
        Ok(head)
    }
}
