ghost use Rattle.std.specs.Prelude.{◌≡◌, codes, IfOk};
ghost use Rattle.core_lint.specs.code.Exports.{exports_name};
ghost use Rattle.core_walk.specs.First.{IsFirst};
ghost use Rattle.core_lint.specs.code.MissingMain.{first_missing};
ghost use Rattle.core_lint.specs.code.UnknownFunctions.{IsMissingMain};

use core_walk::number;
use hy_core::{Form, LintFault, Module, Program};
use hy_terms::Memory;

// Whether a module exports 'main'/0.
fn exports_main(names: &Module) -> bool
    ensures { result ≡ exports_name names.now names.now.exports (codes "main") 0 }
{
    for export in names.exports.as_slice() {
        if names.atoms.text_of(export.name) == b"main".as_slice() && export.arity == 0 {
            return true;
        }
    }
    false
}

// The fault of these modules, of which the first is to export 'main'/0.
fn first_missing_main(modules: &[Module]) -> Result<Option<LintFault>, Memory>
    ensures { IfOk result (λ fault. fault ≡ first_missing modules.now) }
{
    if let [first, ..] = modules
        && !exports_main(first)
    {
        return Ok(Some(LintFault {
            kind: 6,
            module: 0,
            function: number(first.functions.len())?,
            node: 0,
            form: Form::Absent,
        }));
    }
    Ok(None)
}

/// The fault of a first module that doesn't export 'main'/0.
pub fn missing_main(program: &Program) -> Result<Option<LintFault>, Memory>
    ensures { IfOk result (IsFirst (IsMissingMain program.now)) }
{
    first_missing_main(program.given.as_slice())
}
