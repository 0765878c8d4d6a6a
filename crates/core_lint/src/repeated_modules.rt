ghost use Rattle.std.specs.Prelude.{◌≡◌, ◌≤◌, length, IfOk};
ghost use Rattle.hy_core.specs.NameFaults.{module_name as name_of_module};
ghost use Rattle.core_walk.specs.First.{IsFaultOf, IsFirst};
ghost use Rattle.core_lint.specs.code.RepeatedModules.{first_repeated as first_of_names, is_named as is_so_named, repeats_name as repeats_one};

use core_walk::number;
use hy_core::{Form, LintFault, Module, Program};
use hy_terms::Memory;

fn module_name(names: &Module) -> &[u8]
    ensures { result.now ≡ name_of_module names.now }
{
    names.atoms.text_of(names.name)
}

// Whether one of the modules has this name.
fn is_named(modules: &[Module], name: &[u8]) -> bool
    ensures { result ≡ is_so_named modules.now name.now }
{
    for names in modules {
        if module_name(names) == name {
            return true;
        }
    }
    false
}

// Whether the name of the module at place i stands earlier, or in the prelude.
fn repeats_name(program: &Program, i: usize, names: &Module) -> bool
    requires { i ≤ length program.now.given }
    ensures { result ≡ repeats_one program.now i names.now }
{
    let given = program.given.as_slice();
    let name = module_name(names);
    is_named(program.prelude.as_slice(), name) || is_named(&given[..i], name)
}

fn first_repeated(program: &Program) -> Result<Option<LintFault>, Memory>
    ensures { IfOk result (λ fault. fault ≡ first_of_names program.now 0 program.now.given) }
{
    for (i, names) in program.given.as_slice().iter().enumerate() {
        if repeats_name(program, i, names) {
            return Ok(Some(LintFault {
                kind: 1,
                module: number(i)?,
                function: 0,
                node: 0,
                form: Form::Absent,
            }));
        }
    }
    Ok(None)
}

/// The first fault of kind 1: a module with the name of an earlier one, or of one of the prelude.
pub fn repeated_module(program: &Program) -> Result<Option<LintFault>, Memory>
    ensures { IfOk result (IsFirst (IsFaultOf program.now 1)) }
{
    first_repeated(program)
}
