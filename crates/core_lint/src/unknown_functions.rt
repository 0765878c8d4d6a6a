ghost use Rattle.std.specs.Prelude.{◌≡◌, IfOk};
ghost use Rattle.hy_core.specs.NodeParts.{atom_layer};
ghost use Rattle.hy_core.specs.declared.tree.Expr.TheViews.{out-Expr};
ghost use Rattle.core_walk.specs.First.{IsFirst, first_in_functions, first_in_modules};
ghost use Rattle.core_lint.specs.code.UnknownFunctions.{IsUnknownOf, calls_unknown as calls_one_unknown, fits_arity as fits_one_arity, has_other_parameters as have_other_parameters, is_unknown_call as is_one_unknown_call, is_unknown_name as is_one_unknown_name, name_layer, own_names, spawns_unknown as spawns_one_unknown, unknown, written_length as length_written};

use crate::exports::Exports;
use core_names::{BuiltIn, atom_of, called};
use core_walk::{Check, Demand, FunctionNames, Position, first_in_module, form_of, is_nil};
use hy_core::{Expr, Form, FunName, Function, LintFault, Module, Pattern, Program};
use hy_terms::Memory;
use std::alloc::Global;

/// Functions that aren't there, in a module that defines these.
#[derive(Drop)]
struct Unknown<'a> {
    exports: &'a Exports,
    defined: FunctionNames,
}

fn name_of(expr: &Expr) -> Option<FunName>
    ensures { result ≡ name_layer (out-Expr expr.now) }
{
    if let Expr::Name(name) = expr {
        Some(*name)
    } else {
        None
    }
}

// How many elements a list that is written out has.
fn written_length(expr: &Expr) -> Option<usize>
    ensures { result ≡ length_written (out-Expr expr.now) }
{
    match expr {
        Expr::Nil => Some(0),
        Expr::List {
            site: _,
            heads,
            tail,
        } => {
            if is_nil(tail.get()) {
                Some(heads.len())
            } else {
                None
            }
        }
        _ => None,
    }
}

// Whether what is applied is a name that isn't there, or is there with another number of arguments.
fn is_unknown_name(
    locals: &FunctionNames,
    defined: &FunctionNames,
    arguments: usize,
    what: &Expr,
) -> bool
    ensures { result ≡ is_one_unknown_name locals.now defined.now arguments
        (name_layer (out-Expr what.now)) }
{
    if let Some(name) = name_of(what) {
        return !(locals.contains(name) || defined.contains(name))
            || arguments != name.arity as usize;
    }
    false
}

fn fits_arity(function: &Function) -> bool
    ensures { result ≡ fits_one_arity function.now }
{
    function.params.len() == function.name.arity as usize
}

// Whether a definition has another number of parameters than its arity says.
fn has_other_parameters(functions: &[Function]) -> bool
    ensures { result ≡ have_other_parameters functions.now }
{
    for function in functions {
        if !fits_arity(function) {
            return true;
        }
    }
    false
}

// Whether these arguments of a spawn name a function that isn't exported.
fn spawns_unknown(exports: &Exports, names: &Module, args: &[Expr]) -> bool
    ensures { result ≡ spawns_one_unknown exports.now names.now args.now }
{
    if let [module, name, list] = args
        && let Some(module) = atom_of(module)
        && let Some(name) = atom_of(name)
        && let Some(length) = written_length(list)
    {
        return !exports.contains(
            names.atoms.text_of(module),
            names.atoms.text_of(name),
            length,
        );
    }
    false
}

// Whether a call of these atoms, which is this built-in or none, is of a function that isn't
// exported.
fn is_unknown_call(
    exports: &Exports,
    names: &Module,
    place: u32,
    name: u32,
    args: &[Expr],
    built_in: Option<BuiltIn>,
) -> bool
    ensures { result ≡ is_one_unknown_call exports.now names.now place name args.now built_in }
{
    match built_in {
        None => !exports.contains(
            names.atoms.text_of(place),
            names.atoms.text_of(name),
            args.len(),
        ),
        Some(BuiltIn::Spawn) => spawns_unknown(exports, names, args),
        Some(_) => false,
    }
}

// Whether a call is of a function that isn't exported.
fn calls_unknown(
    exports: &Exports,
    names: &Module,
    module: &Expr,
    name: &Expr,
    args: &[Expr],
) -> bool
    ensures { result ≡ calls_one_unknown exports.now names.now
        (atom_layer (out-Expr «module».now)) (atom_layer (out-Expr name.now)) args.now }
{
    if let Some(place) = atom_of(module)
        && let Some(name_atom) = atom_of(name)
    {
        let built_in = called(&names.atoms, module, name, args.len());
        return is_unknown_call(exports, names, place, name_atom, args, built_in);
    }
    false
}

impl<'a> Check for Unknown<'a> {
    ghost forms = { λ check. unknown check.exports.now (λ _. check.defined) };

    fn expr_fault(
        &self,
        names: &Module,
        expr: &Expr,
        at: &Position,
        _demand: Demand,
    ) -> Result<Option<Form>, Memory> {
        let fails = match expr {
            Expr::Apply { what, args } => {
                is_unknown_name(&at.locals, &self.defined, args.len(), what.get())
            }
            Expr::Call { module, name, args } => calls_unknown(
                self.exports,
                names,
                module.get(),
                name.get(),
                args.as_slice(),
            ),
            Expr::Letrec { functions, body: _ } => has_other_parameters(functions.as_slice()),
            _ => false,
        };
        Ok(form_of(fails))
    }

    fn patterns_fault(&self, _patterns: &[Pattern]) -> Result<Option<Form>, Memory> {
        Ok(None)
    }

    fn function_fault(
        &self,
        _names: &Module,
        _place: usize,
        function: &Function,
    ) -> Result<bool, Memory> {
        Ok(!fits_arity(function))
    }
}

// The first fault in the module at this place.
fn first_unknown_in(
    alloc: Global,
    exports: &Exports,
    place: usize,
    names: &Module,
) -> Result<Option<LintFault>, Memory>
    ensures { IfOk result (λ fault. fault ≡ first_in_functions (unknown exports.now own_names) 6
        place names.now 0 names.now.functions) }
{
    let mut defined = FunctionNames::new(alloc);
    defined.define(names.functions.as_slice())?;
    first_in_module(alloc, &Unknown { exports, defined }, 6, place, names)
}

// The first fault in modules of a program with these exports.
fn first_unknown(
    alloc: Global,
    exports: &Exports,
    modules: &[Module],
) -> Result<Option<LintFault>, Memory>
    ensures { IfOk result (λ fault. fault ≡ first_in_modules (unknown exports.now own_names)
        6 0 modules.now) }
{
    for (i, names) in modules.iter().enumerate() {
        let found = first_unknown_in(alloc, exports, i, names)?;
        if found.is_some() {
            return Ok(found);
        }
    }
    Ok(None)
}

/// The first fault of kind 6 that a function or a node shows: a function that isn't there, or is
/// there with another number of arguments or parameters.
pub fn unknown_function(alloc: Global, program: &Program) -> Result<Option<LintFault>, Memory>
    ensures { IfOk result (IsFirst (IsUnknownOf program.now)) }
{
    let exports = Exports::of(alloc, program)?;
    first_unknown(alloc, &exports, program.given.as_slice())
}
