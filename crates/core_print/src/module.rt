ghost use Rattle.std.specs.Prelude.{◌≡◌, ◌++◌, ℕ, List, codes, map, IfOk, OnOk};
ghost use Rattle.hy_core.specs.Canonical.{canonical_text, atom_token, name_text, with_commas};
ghost use Rattle.hy_core.specs.Reading.{IsModuleText, HasTree};
ghost use Rattle.hy_core.specs.Sites.{unsited};

use crate::expr::push_functions;
use crate::names::push_names;
use crate::token::{push_atom_token, put};
use hy_core::Module;
use hy_terms::Memory;
use std::alloc::Global;

/// The canonical text of a module: its tokens in the order of the grammar, joined by single spaces,
/// then a line feed.
///
/// It has no annotations and no attributes. Lists of variables and of patterns stand between `<`
/// and `>`, a list whose tail is nil has no bar, and characters are integers. A number that isn't
/// in the module's table of atoms or variables has the empty text there.
pub fn print_module(alloc: Global, module: &Module) -> Result<Vec<u8>, Memory>
    ensures canonical { IfOk result (λ text. text.items ≡ canonical_text «module».now) }
    // What was read is read again: the grammar gives the text the same tree, site numbers aside.
    ensures reads_back { IfOk result (λ text. (source : List ℕ)
        → IsModuleText source (unsited «module».now)
        → HasTree text.items (unsited «module».now)) }
{
    let mut out = Vec::new(alloc);
    push_head(&mut out, module)?;
    push_functions(&mut out, module, module.functions.as_slice())?;
    put(&mut out, b" end\n")?;
    Ok(out)
}

// Appends what stands before the definitions.
fn push_head(out: &mut Vec<u8>, names: &Module) -> Result<(), Memory>
    ensures { OnOk result (out.new.items ≡ out.old.items ++ codes "module"
        ++ atom_token names.now names.now.name ++ codes " ["
        ++ with_commas (map (name_text names.now) names.now.exports)
        ++ codes " ] attributes [ ]") }
{
    put(out, b"module")?;
    push_atom_token(out, names, names.name)?;
    put(out, b" [")?;
    push_names(out, names, names.exports.as_slice())?;
    put(out, b" ] attributes [ ]")
}
