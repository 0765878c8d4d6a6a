ghost use Rattle.std.specs.Prelude.{◌≡◌, OnOk};
ghost use Rattle.code_writing.specs.Ends.{branches_of, builder_of, end_of};
ghost use Rattle.lowered_code.specs.LoweredExpressions.{no_branches, with_arm};

use crate::builder::Builder;
use crate::checks::Checks;
use crate::closing::write_tree;
use crate::guarded::Guarded;
use crate::place::End;
use hy_ir::Arm;
use hy_terms::Memory;
use sqlite_items::Items;
use std::alloc::Global;

/// Arms, and the first register that isn't in use.
#[derive(Drop)]
pub struct Branches {
    pub alloc: Global,
    pub arms: Items<Arm>,
    pub next: u32,
}

impl Branches {
    /// None, where this is the first register that isn't in use.
    pub fn new(alloc: Global, next: u32) -> Branches
        ensures { branches_of result ≡ no_branches next }
    {
        Branches {
            alloc,
            arms: Items::new(alloc),
            next,
        }
    }

    /// Where its memory comes from.
    pub fn allocator(&self) -> Global {
        self.alloc
    }

    /// The first register that isn't in use.
    pub fn next(&self) -> u32
        ensures { result ≡ self.now.next }
    {
        self.next
    }

    /// The arm with these tests, this guard and this body, which was written last.
    #[tactic(auto, using(crate::proofs::TreeLemmas::arm_more))]
    pub fn add(
        &mut self,
        checks: Checks,
        guarded: Guarded,
        body: Builder,
        end: End,
    ) -> Result<(), Memory>
        ensures { OnOk result (branches_of self.new
            ≡ with_arm (branches_of self.old) checks guarded (builder_of body, end_of end)) }
    {
        self.next = body.next();
        self.arms.push(Arm {
            tests: checks.into_tests(),
            guard: guarded.into_guard(),
            body: write_tree(body, end),
        })?;
        Ok(())
    }

    /// The arms.
    pub fn into_arms(self) -> Items<Arm>
        ensures { result ≡ self.arms }
    {
        let Branches {
            alloc: _,
            arms,
            next: _,
        } = self;
        arms
    }
}
