ghost use Rattle.std.specs.Prelude.{◌≡◌, ◌+◌, ◌-◌, ◌<◌, ◌≤◌, if◌then◌else◌, [], ◌∷◌, ◌++◌, length, take, OnErr, OnOk};
ghost use Rattle.hy_core.specs.Nodes.{names_of};
ghost use Rattle.hy_core.specs.Resolve.{is_local};
ghost use Rattle.hy_core.specs.Resolved.{is_name};
ghost use Rattle.hy_core.specs.declared.tree.FunName.{FunName as AnyName};
ghost use Rattle.indexmap.specs.IndexMap.{IsUnchanged};
ghost use Rattle.core_walk.specs.NameCounts.{count_of as count_at, key_of as key_for};

use hy_core::{FunName, Function};
use hy_terms::Memory;
use indexmap::IndexMap;
use std::alloc::Global;
use std::marker::Model;

/// The functions of the letrecs around a place, or those of a module.
///
/// A contract sees it as the list of their names, the outermost first.
#[derive(Drop)]
pub struct FunctionNames {
    names: Vec<FunName>,
    counts: IndexMap<(u32, u32), usize>,
}

impl Model for FunctionNames {
    ghost use Rattle.std.specs.Prelude.{List};
    ghost use Rattle.hy_core.specs.declared.tree.FunName.{FunName as AName};
    ghost use Rattle.indexmap.specs.IndexMap.{IsUnchanged};
    ghost use Rattle.core_walk.specs.NameCounts.{CountsNames};

    ghost Value = { List AName };

    ghost view = { λ l. l.names.items };

    ghost invariant = { λ l. CountsNames l.counts l.names.items };
}

// A name as a key of the counts.
fn key_of(name: FunName) -> (u32, u32)
    ensures { result ≡ key_for name }
{
    (name.name, name.arity)
}

// How often a name is counted.
fn count_of(counts: &IndexMap<(u32, u32), usize>, name: FunName) -> usize
    ensures { result ≡ count_at counts.now name }
{
    match counts.get(&key_of(name)) {
        Some(count) => *count,
        None => 0,
    }
}

// Changes how often a name is counted.
fn set_count(
    counts: &mut IndexMap<(u32, u32), usize>,
    name: FunName,
    count: usize,
) -> Result<(), Memory>
    ensures ok { OnOk result ((f : AnyName) → count_at counts.new f
        ≡ (if is_name name f then count else count_at counts.old f)) }
    ensures err { OnErr result (IsUnchanged counts.old counts.new) }
{
    counts.insert(key_of(name), count)?;
    Ok(())
}

// Counts a name once less.
fn uncount(counts: &mut IndexMap<(u32, u32), usize>, name: FunName)
    requires { 0 < count_at counts.old name }
    ensures { (f : AnyName) → count_at counts.new f
        ≡ (if is_name name f then count_at counts.old name - 1 else count_at counts.old f) }
{
    if let Some(count) = counts.get_mut(&key_of(name)) {
        *count -= 1;
    }
}

impl FunctionNames {
    /// No functions.
    pub fn new(alloc: Global) -> FunctionNames
        ensures { result ≡ [] }
    {
        FunctionNames {
            names: Vec::new(alloc),
            counts: IndexMap::new(alloc),
        }
    }

    /// How many functions there are.
    pub fn len(&self) -> usize
        ensures { result ≡ length self.now }
    {
        self.names.len()
    }

    /// Whether a function is there.
    pub fn contains(&self, name: FunName) -> bool
        ensures { result ≡ is_local name self.now }
    {
        count_of(&self.counts, name) > 0
    }

    /// Adds a function.
    pub fn push(&mut self, name: FunName) -> Result<(), Memory>
        ensures { OnOk result (self.new ≡ self.old ++ name ∷ []) }
    {
        let count = count_of(&self.counts, name);
        // A name that is counted can be pushed.
        self.names.reserve(1)?;
        set_count(&mut self.counts, name, count + 1)?;
        self.names.push(name)?;
        Ok(())
    }

    /// Adds the functions of a letrec.
    pub fn define(&mut self, functions: &[Function]) -> Result<(), Memory>
        ensures { OnOk result (self.new ≡ self.old ++ names_of functions.now) }
    {
        for function in functions {
            self.push(function.name)?;
        }
        Ok(())
    }

    // Leaves the innermost function.
    fn pop(&mut self)
        requires { 0 < length self.old }
        ensures { self.new ≡ take (length self.old - 1) self.old }
    {
        if let Some(name) = self.names.pop() {
            uncount(&mut self.counts, name);
        }
    }

    /// Goes back to where there were so many functions.
    pub fn leave(&mut self, depth: usize)
        requires { depth ≤ length self.old }
        ensures { self.new ≡ take depth self.old }
    {
        while self.names.len() > depth {
            self.pop();
        }
    }
}
