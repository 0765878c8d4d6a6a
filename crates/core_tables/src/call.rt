ghost use Rattle.std.specs.Prelude.{◌≡◌};
ghost use Rattle.core_tables.specs.code.CallParts.{call_sites as sites_of_call};

use core_names::BuiltIn;

/// How many sites a call of this built-in has of its own.
pub fn call_sites(built_in: Option<BuiltIn>) -> usize
    ensures { result ≡ sites_of_call built_in }
{
    match built_in {
        Some(BuiltIn::Setelement) => 1,
        _ => 0,
    }
}
