ghost use Rattle.std.specs.Prelude.{◌≡◌, ◌+◌, length, IfOk, OnOk};
ghost use Rattle.hy_core.specs.Numbered.{function_count};
ghost use Rattle.letrec_names.specs.NestedCounts.{program_counts, within};
ghost use Rattle.letrec_names.specs.code.Passed.{passed_modules};

use crate::expressions::pass_functions_of_module;
use hy_core::Module;
use hy_terms::Memory;
use std::alloc::Global;
use std::marker::Model;

/// How many functions of letrecs stand in the body of each such function of a program.
///
/// A contract sees it as the counts in the order of the functions' numbers, with the first number.
#[derive(Drop)]
pub struct NestedCounts {
    first: u32,
    counts: Vec<u32>,
}

impl Model for NestedCounts {
    ghost use Rattle.letrec_names.specs.NestedCounts.{Counts};

    ghost Value = { Counts };

    ghost view = { λ c. record { first = c.first; counts = c.counts.items } };
}

impl NestedCounts {
    /// The number of the first function of a letrec.
    pub fn first(&self) -> u32
        ensures { result ≡ self.now.first }
    {
        self.first
    }

    /// How many stand in the body of the function with this number; 0 where no function of a
    /// letrec has it.
    pub fn within(&self, function: u32) -> u32
        ensures { result ≡ within self.now function }
    {
        if function < self.first {
            return 0;
        }
        match self.counts.get((function - self.first) as usize) {
            Some(count) => *count,
            None => 0,
        }
    }
}

// How many functions modules have.
pub(crate) fn count_functions(modules: &[Module]) -> Result<u32, Memory>
    ensures { IfOk result (λ count. count ≡ function_count modules.now) }
{
    let mut count: u32 = 0;
    for names in modules {
        let own = u32::try_from(names.functions.len()).map_err(|_| Memory)?;
        count = count.checked_add(own).ok_or(Memory)?;
    }
    Ok(count)
}

// Puts the counts of modules behind others.
fn pass_modules(counts: &mut Vec<u32>, modules: &[Module]) -> Result<(), Memory>
    ensures { OnOk result (counts.new.items ≡ passed_modules counts.old.items modules.now) }
{
    for names in modules {
        pass_functions_of_module(counts, names.functions.as_slice())?;
    }
    Ok(())
}

/// Counts them in the modules of a program, in one pass. `Memory` for want of memory, or where a
/// number passes its type.
pub fn nested_counts(alloc: Global, modules: &[Module]) -> Result<NestedCounts, Memory>
    ensures { IfOk result (λ counts. counts ≡ program_counts modules.now) }
{
    let first = count_functions(modules)?;
    let mut counts = Vec::new(alloc);
    pass_modules(&mut counts, modules)?;
    Ok(NestedCounts { first, counts })
}
