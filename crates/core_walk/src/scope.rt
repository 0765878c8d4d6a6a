ghost use Rattle.std.specs.Prelude.{◌≡◌, ℕ, ◌-◌, ◌<◌, ◌≤◌, [], ◌∷◌, ◌++◌, length, take, vec_len, OnOk};
ghost use Rattle.std.specs.List.{slice_index_or};
ghost use Rattle.core_walk.specs.Bound.{is_bound};

use hy_terms::Memory;
use std::alloc::{AllocError, Global};
use std::marker::Model;

/// The variables that are bound at a place, each with how often it is.
///
/// A contract sees it as the list of the variables, the outermost first.
#[derive(Drop)]
pub struct Scope {
    bound: Vec<u32>,
    counts: Vec<usize>,
}

impl Model for Scope {
    ghost use Rattle.std.specs.Prelude.{List, ℕ};
    ghost use Rattle.core_walk.specs.Bound.{Counts};

    ghost Value = { List ℕ };

    ghost view = { λ s. s.bound.items };

    ghost invariant = { λ s. Counts s.counts.items s.bound.items };
}

// Makes room for so many counts: a new one is 0.
fn make_places(counts: &mut Vec<usize>, places: usize) -> Result<(), AllocError>
    ensures same { (place : ℕ) → slice_index_or counts.new.items place 0 ≡ slice_index_or
        counts.old.items place 0 }
    ensures room { OnOk result (places ≤ vec_len counts.new) }
{
    if counts.len() < places {
        counts.resize(places, 0)?;
    }
    Ok(())
}

impl Scope {
    /// No variables.
    pub fn new(alloc: Global) -> Scope
        ensures { result ≡ [] }
    {
        Scope {
            bound: Vec::new(alloc),
            counts: Vec::new(alloc),
        }
    }

    /// Where its memory comes from.
    pub fn allocator(&self) -> Global {
        *self.bound.allocator()
    }

    /// How many variables there are.
    pub fn len(&self) -> usize
        ensures { result ≡ length self.now }
    {
        self.bound.len()
    }

    /// Whether a variable is bound.
    pub fn contains(&self, variable: u32) -> bool
        ensures { result ≡ is_bound self.now variable }
    {
        match self.counts.get(variable as usize) {
            Some(count) => *count > 0,
            None => false,
        }
    }

    // Binds a variable.
    fn bind(&mut self, variable: u32) -> Result<(), AllocError>
        ensures { OnOk result (self.new ≡ self.old ++ variable ∷ []) }
    {
        let place = variable as usize;
        make_places(&mut self.counts, place + 1)?;
        self.bound.push(variable)?;
        self.counts[place] += 1;
        Ok(())
    }

    /// Binds variables in their order.
    pub fn bind_all(&mut self, variables: &[u32]) -> Result<(), Memory>
        ensures { OnOk result (self.new ≡ self.old ++ variables.now) }
    {
        for variable in variables {
            self.bind(*variable)?;
        }
        Ok(())
    }

    // Unbinds the innermost variable.
    fn unbind(&mut self)
        requires { 0 < length self.old }
        ensures { self.new ≡ take (length self.old - 1) self.old }
    {
        if let Some(variable) = self.bound.pop() {
            self.counts[variable as usize] -= 1;
        }
    }

    /// Goes back to where so many variables were bound.
    pub fn leave(&mut self, depth: usize)
        requires { depth ≤ length self.old }
        ensures { self.new ≡ take depth self.old }
    {
        while self.bound.len() > depth {
            self.unbind();
        }
    }
}
