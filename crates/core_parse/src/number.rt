ghost use Rattle.std.specs.Prelude.{◌<◌, ◌^◌, ◌≡◌, ◌≤◌, MatchOption, false, true};
ghost use Rattle.hy_core.specs.Marks.{number, value};
ghost use Rattle.core_parse.specs.code.Pushdown.{in_range};

use core_build::StepFault;
use hy_core::{RefusalKind, Sign};
use hy_terms::LEAST_NUMBER;

/// A number out of range.
pub const OUT_OF_RANGE: StepFault = StepFault::Refused(RefusalKind::NumberRange);

// The size of the least number.
const LARGEST_SIZE: u64 = (-LEAST_NUMBER) as u64;

// The largest number of a function's parameters.
const LARGEST_ARITY: u64 = 65_535;

// The number that digits spell, where it is no larger than the least number's size.
fn size_of_digits(digits: &[u8]) -> Option<u64>
    ensures { MatchOption result (2 ^ 59 < value digits.now)
        (λ n. (n ≡ value digits.now) × (n ≤ 2 ^ 59)) }
{
    let mut size: u64 = 0;
    for digit in digits {
        size = 10 * size + u64::from(digit.saturating_sub(b'0'));
        if size > LARGEST_SIZE {
            return None;
        }
    }
    Some(size)
}

/// The integer of a sign and digits, where it is one from -2^59 to 2^59 - 1.
pub fn integer(sign: Sign, digits: &[u8]) -> Option<i64>
    ensures { MatchOption result (in_range sign (value digits.now) ≡ false)
        (λ n. (in_range sign (value digits.now) ≡ true) × (n ≡ number sign (value digits.now))) }
{
    let size = size_of_digits(digits)?;
    match sign {
        Sign::Minus => Some(-(size as i64)),
        _ => {
            if size < LARGEST_SIZE {
                Some(size as i64)
            } else {
                None
            }
        }
    }
}

/// The arity that digits spell, where it is at most 65,535.
pub fn arity(digits: &[u8]) -> Option<u32>
    ensures { MatchOption result (65535 < value digits.now)
        (λ n. (n ≡ value digits.now) × (n ≤ 65535)) }
{
    let size = size_of_digits(digits)?;
    if size <= LARGEST_ARITY {
        Some(size as u32)
    } else {
        None
    }
}
