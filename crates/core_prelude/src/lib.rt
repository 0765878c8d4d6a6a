//! The modules that each program has beside those that are given.
#![tactic(auto)]

ghost use Rattle.std.specs.Prelude.{◌≡◌, IfOk};
ghost use Rattle.hy_core.specs.PreludeModules.{prelude_modules};

mod build;
mod erlang;
mod lists;

use crate::erlang::module_erlang;
use crate::lists::module_lists;
use hy_core::Module;
use hy_terms::Memory;
use std::alloc::Global;

/// The modules that each program has beside those that are given: `'erlang'` with `'++'/2`, then
/// `'lists'` with `'reverse'/1`, `'reverse'/2` and `'append'/2`. `Memory` for want of memory.
pub fn prelude(alloc: Global) -> Result<Vec<Module>, Memory>
    ensures { IfOk result (λ modules. modules.items ≡ prelude_modules) }
{
    Ok(vec![in alloc; module_erlang(alloc)?, module_lists(alloc)?]?)
}
