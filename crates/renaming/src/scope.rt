ghost use Rattle.std.specs.Prelude.{
  ◌≡◌,
  ℕ,
  ◌+◌,
  ◌-◌,
  ◌<◌,
  ◌≤◌,
  ◌||◌,
  nat_le,
  if◌then◌else◌,
  [],
  ◌∷◌,
  length,
  drop,
  get_or,
  IfOk,
  OnOk,
};
ghost use Rattle.lifted_program.specs.Renaming.{name_for, name_of};

use hy_terms::Memory;
use std::alloc::{AllocError, Global};
use std::marker::Model;

/// A binding in force: its variable, and the place of the one of that variable around it, counted
/// from 1, or 0 where there is none.
#[derive(Clone, Copy)]
pub struct Binding {
    pub variable: u32,
    pub around: u32,
}

/// The variables in scope. Binding one, finding its name and leaving its scope take constant time.
///
/// A contract sees it as the list of the variables, the innermost first.
#[derive(Drop)]
pub struct Scope {
    bindings: Vec<Binding>,
    places: Vec<u32>,
}

impl Model for Scope {
    ghost use Rattle.std.specs.Prelude.{ℕ, List, []};
    ghost use Rattle.std.specs.Coded.{coded_list, coded_ℕ};
    ghost use Rattle.renaming.specs.Bindings.{onto, variables, Linked};

    ghost Value = { List ℕ };

    ghost coded = { coded_list coded_ℕ };

    ghost view = { λ s. variables (onto s.bindings.items []) };

    ghost invariant = { λ s. Linked (onto s.bindings.items []) s.places.items };
}

// The number at a place of a list, and 0 past its end.
fn number_at(numbers: &[u32], place: usize) -> u32
    ensures { result ≡ get_or numbers.now place 0 }
{
    match numbers.get(place) {
        Some(number) => *number,
        None => 0,
    }
}

// Room for a place; what is read stays.
fn make_room(numbers: &mut Vec<u32>, place: usize) -> Result<(), AllocError>
    ensures same { (x : ℕ) → get_or numbers.new.items x 0 ≡ get_or numbers.old.items x 0 }
    ensures longer { length numbers.old.items ≤ length numbers.new.items }
    ensures inside { OnOk result (place < length numbers.new.items) }
{
    while numbers.len() <= place {
        numbers.push(0)?;
    }
    Ok(())
}

// The name of a variable that is bound under so many others.
fn name_at(limit: u32, depth: usize, bound: bool, variable: u32) -> Result<u32, Memory>
    ensures { IfOk result (λ name.
        name ≡ (if bound || nat_le limit variable then limit + depth else variable)) }
{
    if bound || limit <= variable {
        let depth = u32::try_from(depth).map_err(|_| Memory)?;
        limit.checked_add(depth).ok_or(Memory)
    } else {
        Ok(variable)
    }
}

impl Scope {
    /// No variable.
    pub fn new(alloc: Global) -> Scope
        ensures { result ≡ [] }
    {
        Scope {
            bindings: Vec::new(alloc),
            places: Vec::new(alloc),
        }
    }

    /// Where its memory comes from.
    pub fn allocator(&self) -> Global {
        *self.bindings.allocator()
    }

    /// How many variables are in scope.
    #[tactic(auto, using(crate::proofs::Finding::depth_is))]
    pub fn depth(&self) -> usize
        ensures { result ≡ length self.now }
    {
        self.bindings.len()
    }

    /// The name of a variable that is bound here. `Memory` where it has no number.
    pub fn name_for(&self, limit: u32, variable: u32) -> Result<u32, Memory>
        ensures { IfOk result (λ name. name ≡ name_for limit self.now variable) }
    {
        let place = number_at(self.places.as_slice(), variable as usize);
        name_at(limit, self.depth(), place > 0, variable)
    }

    /// The name of a variable. `Memory` where it has no number.
    pub fn name_of(&self, limit: u32, variable: u32) -> Result<u32, Memory>
        ensures { IfOk result (λ name. name ≡ name_of limit self.now variable) }
    {
        let place = number_at(self.places.as_slice(), variable as usize);
        if place == 0 {
            return name_at(limit, self.depth(), true, variable);
        }
        let depth = place as usize - 1;
        let binding = self.bindings[depth];
        name_at(limit, depth, binding.around > 0, variable)
    }

    /// Binds a variable.
    pub fn bind(&mut self, variable: u32) -> Result<(), Memory>
        ensures { OnOk result (self.new ≡ variable ∷ self.old) }
    {
        let place = variable as usize;
        make_room(&mut self.places, place)?;
        let around = self.places[place];
        if self.bindings.len() >= 0xffff_ffff {
            return Err(Memory);
        }
        self.bindings.push(Binding { variable, around })?;
        self.places[place] = self.bindings.len() as u32;
        Ok(())
    }

    // Forgets the innermost binding.
    fn unbind(&mut self)
        requires { 0 < length self.old }
        ensures { self.new ≡ drop 1 self.old }
    {
        if let Some(binding) = self.bindings.pop() {
            self.places[binding.variable as usize] = binding.around;
        }
    }

    /// Forgets the innermost bindings, until so many are left.
    pub fn back_to(&mut self, depth: usize)
        ensures { self.new ≡ drop (length self.old - depth) self.old }
    {
        while self.depth() > depth {
            self.unbind();
        }
    }
}
