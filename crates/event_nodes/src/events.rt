ghost use Rattle.std.specs.Prelude.{◌≡◌, IfOk, OnOk, map};
ghost use Rattle.hy_core.specs.Syntax.{pattern_of, patterns_of};
ghost use Rattle.event_nodes.specs.code.Walked.{
  back,
  begun,
  defined,
  nothing_found,
  passed,
  stepped,
};

use core_tables::pass_patterns;
use hy_core::Pattern;
use hy_terms::Memory;
use std::alloc::Global;
use std::marker::Model;

/// An event: the function in which it stands, and its node.
#[derive(Clone, Copy)]
pub struct Event {
    pub owner: u32,
    pub node: u32,
}

/// What is found so far: the number of the next function of a module, that of the next node in the
/// one that is walked, that of the next function of a letrec, and the events.
#[derive(Drop)]
pub struct Events {
    function: u32,
    node: u32,
    next: u32,
    found: Vec<Event>,
}

impl Model for Events {
    ghost use Rattle.event_nodes.specs.code.Walked.{Walk};

    ghost Value = { Walk };

    ghost view = { λ w. record {
      function = w.function;
      node = w.node;
      next = w.next;
      found = w.found.items;
    } };
}

impl Events {
    /// None, where the first function of a letrec has this number.
    pub fn new(alloc: Global, next: u32) -> Events
        ensures { result ≡ nothing_found next }
    {
        Events {
            function: 0,
            node: 0,
            next,
            found: Vec::new(alloc),
        }
    }

    /// The events, in the order of the text.
    pub fn found(&self) -> &[Event]
        ensures { result.now ≡ self.now.found }
    {
        self.found.as_slice()
    }

    /// The number of the next function of a letrec.
    pub fn next(&self) -> u32
        ensures { result ≡ self.now.next }
    {
        self.next
    }

    /// Begins the next function of a module, and gives its number.
    pub fn begin(&mut self) -> Result<u32, Memory>
        ensures { IfOk result (λ function. (function ≡ self.old.function)
            × (self.new ≡ begun self.old)) }
    {
        let function = self.function;
        self.function = function.checked_add(1).ok_or(Memory)?;
        self.node = 0;
        Ok(function)
    }

    /// Begins the next function of a letrec, and gives its number.
    pub fn define(&mut self) -> Result<u32, Memory>
        ensures { IfOk result (λ function. (function ≡ self.old.next)
            × (self.new ≡ defined self.old)) }
    {
        let function = self.next;
        self.next = function.checked_add(1).ok_or(Memory)?;
        Ok(function)
    }

    /// Puts back the number of the next function of a letrec.
    pub fn back_to(&mut self, next: u32)
        ensures { self.new ≡ back next self.old }
    {
        self.next = next;
    }

    /// Goes past a node, which may be an event of this function.
    pub fn step(&mut self, event: bool, owner: u32) -> Result<(), Memory>
        ensures { OnOk result (self.new ≡ stepped event owner self.old) }
    {
        let node = self.node;
        self.node = node.checked_add(1).ok_or(Memory)?;
        if event {
            self.found.push(Event { owner, node })?;
        }
        Ok(())
    }

    /// Goes past the nodes of the patterns of a clause.
    pub fn pass(&mut self, patterns: &[Pattern]) -> Result<(), Memory>
        ensures { OnOk result (self.new
            ≡ passed (patterns_of (map pattern_of patterns.now)) self.old) }
    {
        pass_patterns(&mut self.node, patterns)
    }
}
