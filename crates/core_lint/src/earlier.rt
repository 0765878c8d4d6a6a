ghost use Rattle.std.specs.Prelude.{◌≡◌};
ghost use Rattle.core_lint.specs.code.Earlier.{earlier as lesser_of, is_before as comes_before};

use hy_core::LintFault;

// Whether a fault comes before another of its kind and form.
fn is_before(fault: &LintFault, other: &LintFault) -> bool
    ensures { result ≡ comes_before fault.now other.now }
{
    fault.module < other.module
        || (fault.module == other.module
            && (fault.function < other.function
                || (fault.function == other.function && fault.node < other.node)))
}

/// The lesser of two faults of one kind and form, where there are two.
pub fn earlier(fault: Option<LintFault>, other: Option<LintFault>) -> Option<LintFault>
    ensures { result ≡ lesser_of fault other }
{
    match (fault, other) {
        (Some(fault), Some(other)) => {
            if is_before(&other, &fault) {
                Some(other)
            } else {
                Some(fault)
            }
        }
        (Some(fault), None) => Some(fault),
        (None, other) => other,
    }
}
