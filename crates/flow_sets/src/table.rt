ghost use Rattle.std.specs.Prelude.{◌≡◌, ◌||◌, ℕ, true, false, OnOk};
ghost use Rattle.flow_sets.specs.Table.{in_table, is_of};
ghost use Rattle.flow_sets.specs.Targets.{is_many};
ghost use Rattle.flow_sets.specs.declared.inclusion.FlowSet.{FlowSet as ASet};

use crate::inclusion::FlowSet;
use hy_terms::Memory;
use indexmap::IndexSet;
use std::alloc::Global;

/// A site in the set of a register.
#[derive(Clone, Copy, Debug, PartialEq, Eq, Hash)]
pub struct RegisterSite {
    pub function: u32,
    pub register: u32,
    pub site: u32,
}

/// A site in the set of a function's result.
#[derive(Clone, Copy, Debug, PartialEq, Eq, Hash)]
pub struct ResultSite {
    pub function: u32,
    pub site: u32,
}

/// Another site in the set of a field of a site.
#[derive(Clone, Copy, Debug, PartialEq, Eq, Hash)]
pub struct FieldSite {
    pub site: u32,
    pub field: u32,
    pub other: u32,
}

/// The sites in each set.
#[derive(Drop)]
pub struct FlowTable {
    pub registers: IndexSet<RegisterSite>,
    pub results: IndexSet<ResultSite>,
    pub fields: IndexSet<FieldSite>,
    pub messages: IndexSet<u32>,
    pub sent: IndexSet<u32>,
}

impl FlowTable {
    /// No site in any set but those of one site.
    pub fn new(alloc: Global) -> FlowTable
        ensures { (X : ASet) (s : ℕ) → is_many X ≡ true → in_table result X s ≡ false }
    {
        FlowTable {
            registers: IndexSet::new(alloc),
            results: IndexSet::new(alloc),
            fields: IndexSet::new(alloc),
            messages: IndexSet::new(alloc),
            sent: IndexSet::new(alloc),
        }
    }

    /// Puts a site into a set. A set of one site stays as it is.
    pub fn add(&mut self, set: FlowSet, site: u32) -> Result<(), Memory>
        ensures { OnOk result ((X : ASet) (s : ℕ) → is_many X ≡ true
            → in_table self.new X s ≡ (in_table self.old X s || is_of set site X s)) }
    {
        match set {
            FlowSet::Only(_) => {}
            FlowSet::Register { function, register } => {
                self.registers.insert(RegisterSite {
                    function,
                    register,
                    site,
                })?;
            }
            FlowSet::Result(function) => {
                self.results.insert(ResultSite { function, site })?;
            }
            FlowSet::Field { site: of, field } => {
                self.fields.insert(FieldSite {
                    site: of,
                    field,
                    other: site,
                })?;
            }
            FlowSet::Message => {
                self.messages.insert(site)?;
            }
            FlowSet::Sent => {
                self.sent.insert(site)?;
            }
        }
        Ok(())
    }

    /// Whether a site is in the set of a register. False where there is no such register or site,
    /// here and in the other readers.
    pub fn has(&self, function: u32, register: u32, site: u32) -> bool
        ensures { result ≡ in_table self.now (FlowSet.Register function register) site }
    {
        self.registers.contains(&RegisterSite {
            function,
            register,
            site,
        })
    }

    /// Whether a site is in the set of a function's result.
    pub fn result_has(&self, function: u32, site: u32) -> bool
        ensures { result ≡ in_table self.now (FlowSet.Result function) site }
    {
        self.results.contains(&ResultSite { function, site })
    }

    /// Whether another site is in the set of a field of a site.
    pub fn field_has(&self, site: u32, field: u32, other: u32) -> bool
        ensures { result ≡ in_table self.now (FlowSet.Field site field) other }
    {
        self.fields.contains(&FieldSite { site, field, other })
    }

    /// Whether a site is in the set of the messages.
    pub fn message_has(&self, site: u32) -> bool
        ensures { result ≡ in_table self.now FlowSet.Message site }
    {
        self.messages.contains(&site)
    }

    /// Whether a site is in the set of what is sent or spawned with.
    pub fn sent_has(&self, site: u32) -> bool
        ensures { result ≡ in_table self.now FlowSet.Sent site }
    {
        self.sent.contains(&site)
    }
}
