ghost use Rattle.std.specs.Prelude.{
  ◌≡◌,
  ℕ,
  ◌-◌,
  ◌<◌,
  ◌≤◌,
  ◌==◌,
  ◌&&◌,
  if◌then◌else◌,
  [],
  ◌∷◌,
  map,
  length,
  drop,
  get_or,
  OnOk,
};
ghost use Rattle.hy_core.specs.Scopes.{with_variables, with_pattern, with_patterns};
ghost use Rattle.hy_core.specs.Syntax.{pattern_of, patterns_of};
ghost use Rattle.captured_facts.specs.Facts.{first_place, place_by};

use hy_core::Pattern;
use hy_terms::Memory;
use std::alloc::{AllocError, Global};
use std::marker::Model;

/// The variables in scope. To bind one, to find the place of its outermost binding and to leave its
/// scope take constant time.
///
/// A contract sees it as the list of the variables, the innermost first.
#[derive(Drop)]
pub struct Scope {
    variables: Vec<u32>,
    places: Vec<u32>,
}

impl Model for Scope {
    ghost use Rattle.std.specs.Prelude.{ℕ, List, reverse};
    ghost use Rattle.captured_variables.specs.code.Places.{HasPlaces};

    ghost Value = { List ℕ };

    ghost view = { λ s. reverse s.variables.items };

    ghost invariant = { λ s. HasPlaces s.places.items (reverse s.variables.items) };
}

// The number at a place of a list, and 0 past its end.
fn number_at(numbers: &[u32], place: usize) -> u32
    ensures { result ≡ get_or numbers.now place 0 }
{
    match numbers.get(place) {
        Some(number) => *number,
        None => 0,
    }
}

// Room for a place; what is read stays.
fn make_room(numbers: &mut Vec<u32>, place: usize) -> Result<(), AllocError>
    ensures same { (x : ℕ) → get_or numbers.new.items x 0 ≡ get_or numbers.old.items x 0 }
    ensures inside { OnOk result (place < length numbers.new.items) }
{
    while numbers.len() <= place {
        numbers.push(0)?;
    }
    Ok(())
}

// The place of a variable, where it had none.
fn mark(places: &mut Vec<u32>, variable: u32, place: u32)
    requires { variable < length places.old.items }
    ensures { (x : ℕ) → get_or places.new.items x 0
        ≡ place_by (get_or places.old.items x 0) (if x == variable then place else 0) }
{
    let index = variable as usize;
    if places[index] == 0 {
        places[index] = place;
    }
}

// No place for a variable, where it had this one.
fn unmark(places: &mut Vec<u32>, variable: u32, place: usize)
    ensures { (x : ℕ) → get_or places.new.items x 0
        ≡ (if (x == variable) && (get_or places.old.items x 0 == place) then 0
        else get_or places.old.items x 0) }
{
    if let Some(entry) = places.get_mut(variable as usize) {
        if *entry as usize == place {
            *entry = 0;
        }
    }
}

impl Scope {
    /// No variable.
    pub fn new(alloc: Global) -> Scope
        ensures { result ≡ [] }
    {
        Scope {
            variables: Vec::new(alloc),
            places: Vec::new(alloc),
        }
    }

    /// How many variables are in scope.
    pub fn depth(&self) -> usize
        ensures { result ≡ length self.now }
    {
        self.variables.len()
    }

    /// The place of the outermost binding of a variable, counted from 1; 0 where it has none.
    pub fn first_place(&self, variable: u32) -> u32
        ensures { result ≡ first_place self.now variable }
    {
        number_at(self.places.as_slice(), variable as usize)
    }

    /// Binds a variable. `Memory` for want of memory, or where a place passes its type.
    pub fn bind(&mut self, variable: u32) -> Result<(), Memory>
        ensures { OnOk result (self.new ≡ variable ∷ self.old) }
    {
        make_room(&mut self.places, variable as usize)?;
        if self.variables.len() >= 0xffff_ffff {
            return Err(Memory);
        }
        self.variables.push(variable)?;
        mark(&mut self.places, variable, self.variables.len() as u32);
        Ok(())
    }

    // Forgets the innermost binding.
    fn unbind(&mut self)
        requires { 0 < length self.old }
        ensures { self.new ≡ drop 1 self.old }
    {
        let place = self.variables.len();
        if let Some(variable) = self.variables.pop() {
            unmark(&mut self.places, variable, place);
        }
    }

    /// Forgets the innermost bindings, until so many are left.
    pub fn back_to(&mut self, depth: usize)
        ensures { self.new ≡ drop (length self.old - depth) self.old }
    {
        while self.depth() > depth {
            self.unbind();
        }
    }

    /// Binds variables one after another.
    pub fn bind_all(&mut self, variables: &[u32]) -> Result<(), Memory>
        ensures { OnOk result (self.new ≡ with_variables self.old variables.now) }
    {
        for variable in variables {
            self.bind(*variable)?;
        }
        Ok(())
    }
}

/// Binds the variables of a pattern.
#[cycle(bind_pattern)]
pub fn bind_pattern(scope: &mut Scope, pattern: &Pattern) -> Result<(), Memory>
    ensures { OnOk result (scope.new ≡ with_pattern scope.old (pattern_of pattern.now)) }
{
    match pattern {
        Pattern::Var(variable) => scope.bind(*variable),
        Pattern::Int(_) | Pattern::Atom(_) | Pattern::Nil | Pattern::Str(_) => Ok(()),
        Pattern::Tuple(parts) => bind_patterns(scope, parts.as_slice()),
        Pattern::List { heads, tail } => {
            bind_patterns(scope, heads.as_slice())?;
            bind_pattern(scope, tail.get())
        }
        Pattern::Alias { var, pattern } => {
            scope.bind(*var)?;
            bind_pattern(scope, pattern.get())
        }
    }
}

/// Binds the variables of patterns from left to right.
#[cycle(bind_pattern)]
pub fn bind_patterns(scope: &mut Scope, patterns: &[Pattern]) -> Result<(), Memory>
    ensures { OnOk result (scope.new
        ≡ with_patterns scope.old (patterns_of (map pattern_of patterns.now))) }
{
    for pattern in patterns {
        bind_pattern(scope, pattern)?;
    }
    Ok(())
}
