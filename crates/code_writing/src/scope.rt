ghost use Rattle.std.specs.Prelude.{◌≡◌, ℕ, ◌+◌, ◌-◌, ◌<◌, ◌≤◌, [], ◌∷◌, length, drop, get_or, IfOk, OnOk};
ghost use Rattle.lowered_code.specs.LoweredGuards.{bound_to, register_in};
ghost use Rattle.program_code.specs.HeldRegisters.{register_of};

use crate::registers::register_at;
use hy_terms::Memory;
use std::alloc::{AllocError, Global};
use std::marker::Model;

// A binding, with the number of the one before of the same variable: from 1, or 0 for none.
#[derive(Clone, Copy)]
struct Entry {
    variable: u32,
    register: u32,
    before: u32,
}

/// The registers of the variables in scope. All but `bind` take the same time however many there
/// are.
///
/// A contract sees it as the list of the variables with their registers, the last bound first.
#[derive(Drop)]
pub struct Scope {
    entries: Vec<Entry>,
    latest: Vec<u32>,
}

impl Model for Scope {
    ghost use Rattle.std.specs.Prelude.{ℕ, List, []};
    ghost use Rattle.code_writing.specs.code.Bindings.{onto, pairs, Linked};

    ghost Value = { List (ℕ × ℕ) };

    ghost view = { λ s. pairs (onto s.entries.items []) };

    ghost invariant = { λ s. Linked (onto s.entries.items []) s.latest.items };
}

fn number_at(numbers: &[u32], place: usize) -> u32
    ensures { result ≡ get_or numbers.now place 0 }
{
    match numbers.get(place) {
        Some(number) => *number,
        None => 0,
    }
}

// Makes room for a place: what is read stays.
fn make_room(numbers: &mut Vec<u32>, place: usize) -> Result<(), AllocError>
    ensures same { (x : ℕ) → get_or numbers.new.items x 0 ≡ get_or numbers.old.items x 0 }
    ensures longer { length numbers.old.items ≤ length numbers.new.items }
    ensures room { OnOk result (place < length numbers.new.items) }
{
    while numbers.len() <= place {
        numbers.push(0)?;
    }
    Ok(())
}

impl Scope {
    /// No variables.
    pub fn new(alloc: Global) -> Scope
        ensures { result ≡ [] }
    {
        Scope {
            entries: Vec::new(alloc),
            latest: Vec::new(alloc),
        }
    }

    fn find(&self, variable: u32) -> Option<u32>
        ensures { result ≡ register_of variable self.now }
    {
        let number = number_at(self.latest.as_slice(), variable as usize);
        if number == 0 {
            return None;
        }
        let entry = self.entries[number as usize - 1];
        Some(entry.register)
    }

    /// The register of a variable, by its last binding; 0 where it isn't bound.
    pub fn register(&self, variable: u32) -> u32
        ensures { result ≡ register_in self.now variable }
    {
        self.find(variable).unwrap_or(0)
    }

    /// How many bindings there are.
    #[tactic(auto, using(crate::proofs::BindingLemmas::depth_is))]
    pub fn depth(&self) -> usize
        ensures { result ≡ length self.now }
    {
        self.entries.len()
    }

    /// Binds a variable to a register.
    pub fn bind(&mut self, variable: u32, register: u32) -> Result<(), Memory>
        ensures { OnOk result (self.new ≡ (variable, register) ∷ self.old) }
    {
        let place = variable as usize;
        make_room(&mut self.latest, place)?;
        let before = self.latest[place];
        if self.entries.len() >= 0xffff_ffff {
            return Err(Memory);
        }
        self.entries.push(Entry {
            variable,
            register,
            before,
        })?;
        self.latest[place] = self.entries.len() as u32;
        Ok(())
    }

    /// Binds variables to registers, one after another: to 0 where there are too few.
    pub fn bind_all(&mut self, variables: &[u32], registers: &[u32]) -> Result<(), Memory>
        ensures bound { OnOk result (self.new ≡ bound_to variables.now registers.now self.old) }
        ensures back { OnOk result (drop (length self.new - length self.old) self.new ≡ self.old) }
    {
        let mut place: usize = 0;
        for variable in variables {
            self.bind(*variable, register_at(registers, place))?;
            place += 1;
        }
        Ok(())
    }

    // Takes back the last binding.
    fn unbind(&mut self)
        requires { 0 < length self.old }
        ensures { self.new ≡ drop 1 self.old }
    {
        match self.entries.pop() {
            Some(entry) => {
                self.latest[entry.variable as usize] = entry.before;
            }
            None => {}
        }
    }

    /// Takes back the last bindings, until there are so many.
    pub fn back_to(&mut self, depth: usize)
        ensures { self.new ≡ drop (length self.old - depth) self.old }
    {
        while self.depth() > depth {
            self.unbind();
        }
    }
}
