ghost use Rattle.std.specs.Prelude.{◌≡◌, ◌+◌, [], ◌∷◌, ◌++◌, length, replicate, IfOk, OnOk};
ghost use Rattle.hy_core.specs.Counting.{at_node, made};
ghost use Rattle.hy_core.specs.SubPatterns.{patterns_in};

use crate::pattern_nodes::pass_patterns;
use crate::repeated::push_same;
use hy_core::{Pattern, SiteInfo, SiteKind};
use hy_terms::Memory;
use std::alloc::Global;
use std::marker::Model;

/// What has been numbered so far: the next node of the function of a module, the number of the next
/// function of a letrec, and the sites.
#[derive(Drop)]
pub struct Numbers {
    node: u32,
    local: u32,
    sites: Vec<SiteInfo>,
}

impl Model for Numbers {
    ghost use Rattle.hy_core.specs.Counting.{Counts};

    ghost Value = { Counts };

    ghost view = { λ n. record { node = n.node; local = n.local; sites = n.sites.items } };
}

// The number of the next site.
fn next_site(sites: &Vec<SiteInfo>) -> Result<u32, Memory>
    ensures { IfOk result (λ site. site ≡ length sites.now.items) }
{
    u32::try_from(sites.len()).ok().ok_or(Memory)
}

impl Numbers {
    /// Nothing so far, where the first function of a letrec has this number.
    pub fn new(alloc: Global, local: u32) -> Numbers
        ensures { result ≡ record { node = 0; local = local; sites = [] } }
    {
        Numbers {
            node: 0,
            local,
            sites: Vec::new(alloc),
        }
    }

    /// Begins the next function of a module.
    pub fn enter(&mut self)
        ensures { self.new ≡ record self.old { node = 0 } }
    {
        self.node = 0;
    }

    /// Goes past a node that has no sites.
    pub fn pass(&mut self) -> Result<(), Memory>
        ensures { OnOk result (self.new ≡ record self.old { node = self.old.node + 1 }) }
    {
        self.node = self.node.checked_add(1).ok_or(Memory)?;
        Ok(())
    }

    /// Goes past a node that has so many sites of this kind, and gives the number of the first.
    pub fn build(&mut self, function: u32, kind: SiteKind, times: usize) -> Result<u32, Memory>
        ensures { IfOk result (λ site. (site, self.new) ≡ at_node (replicate times kind) made
            function self.old) }
    {
        let first = next_site(&self.sites)?;
        let site = SiteInfo {
            function,
            node: self.node,
            kind,
        };
        push_same(&mut self.sites, site, times)?;
        self.pass()?;
        Ok(first)
    }

    /// Goes past the nodes of the patterns of a clause.
    pub fn pass_patterns(&mut self, patterns: &[Pattern]) -> Result<(), Memory>
        ensures { OnOk result (self.new ≡ record self.old
            { node = self.old.node + length (patterns_in patterns.now) }) }
    {
        pass_patterns(&mut self.node, patterns)
    }

    /// The number of the next function of a letrec.
    pub fn define(&mut self) -> Result<u32, Memory>
        ensures { IfOk result (λ function. (function ≡ self.old.local)
            × (self.new ≡ record self.old { local = self.old.local + 1 })) }
    {
        let function = self.local;
        self.local = function.checked_add(1).ok_or(Memory)?;
        Ok(function)
    }

    /// The sites in the order of their numbers.
    pub fn into_sites(self) -> Vec<SiteInfo>
        ensures { result.items ≡ self.sites }
    {
        let Numbers {
            node: _,
            local: _,
            sites,
        } = self;
        sites
    }
}
