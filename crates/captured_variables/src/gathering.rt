ghost use Rattle.std.specs.Prelude.{◌≡◌, ◌++◌, length, map, IfOk, OnOk};
ghost use Rattle.hy_core.specs.Syntax.{definitions_of, pattern_of, patterns_of, syntax_of};
ghost use Rattle.captured_facts.specs.Facts.{first_place, occurring, using};
ghost use Rattle.captured_syntax.specs.Gathered.{
  applying,
  applying_name,
  back_to,
  beginning,
  begun,
  binding,
  leaving,
  matching,
  noting,
};
ghost use Rattle.captured_variables.specs.code.Walked.{entering_by, nothing_gathered};
ghost use Rattle.letrec_names.specs.Parts.{function_syntax};

use crate::scope::{Scope, bind_patterns};
use capture_flow::{Edge, Fact, Member};
use captured_facts::Owner;
use hy_core::{Expr, FunName, Function, Pattern};
use hy_terms::Memory;
use letrec_names::{LetrecNames, NestedCounts};
use std::alloc::Global;
use std::marker::Model;

/// What is gathered so far: the variables in scope and the functions of letrecs around the place
/// that is reached, the number of the next such function, and the facts.
#[derive(Drop)]
pub struct Gathering {
    scope: Scope,
    around: LetrecNames,
    next: u32,
    facts: Vec<Fact>,
}

impl Model for Gathering {
    ghost use Rattle.captured_syntax.specs.Gathered.{Gathering as Gathered};

    ghost Value = { Gathered };

    ghost view = { λ w. record {
      scope = w.scope;
      around = w.around;
      next = w.next;
      facts = w.facts.items;
    } };
}

impl Gathering {
    /// Nothing, where the first function of a letrec has this number.
    pub fn new(alloc: Global, next: u32) -> Gathering
        ensures { result ≡ nothing_gathered next }
    {
        Gathering {
            scope: Scope::new(alloc),
            around: LetrecNames::new(alloc),
            next,
            facts: Vec::new(alloc),
        }
    }

    /// The facts.
    pub fn facts(&self) -> &[Fact]
        ensures { result.now ≡ self.now.facts }
    {
        self.facts.as_slice()
    }

    /// How many variables are in scope.
    pub fn depth(&self) -> usize
        ensures { result ≡ length self.now.scope }
    {
        self.scope.depth()
    }

    /// How many functions of letrecs are around.
    pub fn height(&self) -> usize
        ensures { result ≡ length self.now.around }
    {
        self.around.height()
    }

    /// Binds variables.
    pub fn bind(&mut self, variables: &[u32]) -> Result<(), Memory>
        ensures { OnOk result (self.new ≡ binding self.old variables.now) }
    {
        self.scope.bind_all(variables)
    }

    /// Binds the variables of patterns.
    pub fn match_patterns(&mut self, patterns: &[Pattern]) -> Result<(), Memory>
        ensures { OnOk result (self.new
            ≡ matching self.old (patterns_of (map pattern_of patterns.now))) }
    {
        bind_patterns(&mut self.scope, patterns)
    }

    /// Goes back to where so many variables are in scope.
    pub fn back_to(&mut self, depth: usize)
        ensures { self.new ≡ back_to depth self.old }
    {
        self.scope.back_to(depth);
    }

    /// Enters the functions of a letrec.
    pub fn enter(&mut self, counts: &NestedCounts, functions: &[Function]) -> Result<(), Memory>
        ensures { OnOk result (self.new ≡ entering_by counts.now self.old
            (definitions_of (map function_syntax functions.now))) }
    {
        self.around.enter_functions(counts, self.next, functions)
    }

    /// Leaves functions, until so many are around.
    pub fn leave(&mut self, height: usize)
        ensures { self.new ≡ leaving height self.old }
    {
        self.around.back_to(height);
    }

    /// A variable occurs in the text of a function.
    pub fn occur(&mut self, owner: Owner, variable: u32) -> Result<(), Memory>
        ensures { OnOk result (self.new
            ≡ noting self.old (occurring owner variable (first_place self.old.scope variable))) }
    {
        let place = self.scope.first_place(variable);
        if 0 < place && place <= owner.depth {
            self.facts.push(Fact::Occurs(Member {
                function: owner.function,
                variable,
                place,
            }))?;
        }
        Ok(())
    }

    /// The text of a function applies what has this name.
    pub fn apply(&mut self, owner: Owner, name: FunName) -> Result<(), Memory>
        ensures { OnOk result (self.new ≡ applying_name owner self.old name) }
    {
        match self.around.number_of(name) {
            Some(used) => push_use(&mut self.facts, owner, used),
            None => Ok(()),
        }
    }

    /// The function whose definition begins here.
    pub fn owner(&self) -> Result<Owner, Memory>
        ensures { IfOk result (λ owner. owner ≡ beginning self.now) }
    {
        let depth = u32::try_from(self.depth()).map_err(|_| Memory)?;
        Ok(Owner {
            function: self.next,
            depth,
        })
    }

    /// Begins its definition, in the text of another one.
    pub fn begin(&mut self, owner: Owner) -> Result<(), Memory>
        ensures { OnOk result (self.new ≡ begun owner self.old) }
    {
        let next = self.next.checked_add(1).ok_or(Memory)?;
        push_use(&mut self.facts, owner, self.next)?;
        self.next = next;
        Ok(())
    }
}

// A function uses another one.
fn push_use(facts: &mut Vec<Fact>, owner: Owner, used: u32) -> Result<(), Memory>
    ensures { OnOk result (facts.new.items ≡ facts.old.items ++ using owner used) }
{
    if 0 < owner.depth {
        facts.push(Fact::Uses(Edge {
            function: owner.function,
            used,
            depth: owner.depth,
        }))?;
    }
    Ok(())
}

/// The text of a function applies this expression.
pub fn apply_what(owner: Owner, walk: &mut Gathering, what: &Expr) -> Result<(), Memory>
    ensures { OnOk result (walk.new ≡ applying owner walk.old (syntax_of what.now)) }
{
    match what {
        Expr::Name(name) => walk.apply(owner, *name),
        _ => Ok(()),
    }
}
