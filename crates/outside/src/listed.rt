ghost use Rattle.std.specs.Prelude.{◌↔◌, Contains, IsTrue};

/// Whether the call of this number is one of those that are to fail.
pub fn is_listed(fails: &[u64], call: u64) -> bool
    ensures { IsTrue result ↔ Contains fails.now call }
{
    fails.contains(&call)
}
