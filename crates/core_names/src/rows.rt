ghost use Rattle.std.specs.Prelude.{◌≡◌};
ghost use Rattle.core_names.specs.code.Rows.{found_in, number_rows, bit_rows, truth_rows, test_rows, comparison_rows, part_rows, effect_rows, built_in_named as built_in_so_named};
ghost use Rattle.std.specs.Prelude.{map};

use crate::built_in::BuiltIn;
use hy_core::{Bif, Class};

// The built-in of the first row of this name with so many arguments.
fn found(rows: &[(&[u8], usize, BuiltIn)], name: &[u8], arity: usize) -> Option<BuiltIn>
    ensures { result ≡ found_in (map (λ row. (row.0.now, (row.1, row.2))) rows.now) name.now arity }
{
    for row in rows {
        if row.0 == name && row.1 == arity {
            return Some(row.2);
        }
    }
    None
}

// Of numbers.
fn number_built_in(name: &[u8], arity: usize) -> Option<BuiltIn>
    ensures { result ≡ found_in number_rows name.now arity }
{
    let rows = [
        (b"+".as_slice(), 2, BuiltIn::Plain(Bif::Add)),
        (b"-".as_slice(), 2, BuiltIn::Plain(Bif::Sub)),
        (b"*".as_slice(), 2, BuiltIn::Plain(Bif::Mul)),
        (b"-".as_slice(), 1, BuiltIn::Plain(Bif::Neg)),
        (b"div".as_slice(), 2, BuiltIn::Plain(Bif::Div)),
        (b"rem".as_slice(), 2, BuiltIn::Plain(Bif::Rem)),
    ];
    found(rows.as_slice(), name, arity)
}

// Of the bits of numbers, and their size.
fn bit_built_in(name: &[u8], arity: usize) -> Option<BuiltIn>
    ensures { result ≡ found_in bit_rows name.now arity }
{
    let rows = [
        (b"band".as_slice(), 2, BuiltIn::Plain(Bif::Band)),
        (b"bor".as_slice(), 2, BuiltIn::Plain(Bif::Bor)),
        (b"bxor".as_slice(), 2, BuiltIn::Plain(Bif::Bxor)),
        (b"abs".as_slice(), 1, BuiltIn::Plain(Bif::Abs)),
    ];
    found(rows.as_slice(), name, arity)
}

// Of truths.
fn truth_built_in(name: &[u8], arity: usize) -> Option<BuiltIn>
    ensures { result ≡ found_in truth_rows name.now arity }
{
    let rows = [
        (b"and".as_slice(), 2, BuiltIn::Plain(Bif::And)),
        (b"or".as_slice(), 2, BuiltIn::Plain(Bif::Or)),
        (b"xor".as_slice(), 2, BuiltIn::Plain(Bif::Xor)),
        (b"not".as_slice(), 1, BuiltIn::Plain(Bif::Not)),
    ];
    found(rows.as_slice(), name, arity)
}

// Tests of kinds, and the size of a tuple.
fn test_built_in(name: &[u8], arity: usize) -> Option<BuiltIn>
    ensures { result ≡ found_in test_rows name.now arity }
{
    let rows = [
        (b"is_integer".as_slice(), 1, BuiltIn::Plain(Bif::IsInteger)),
        (b"is_number".as_slice(), 1, BuiltIn::Plain(Bif::IsNumber)),
        (b"is_atom".as_slice(), 1, BuiltIn::Plain(Bif::IsAtom)),
        (b"is_boolean".as_slice(), 1, BuiltIn::Plain(Bif::IsBoolean)),
        (b"is_pid".as_slice(), 1, BuiltIn::Plain(Bif::IsPid)),
        (b"is_list".as_slice(), 1, BuiltIn::Plain(Bif::IsList)),
        (b"is_tuple".as_slice(), 1, BuiltIn::Plain(Bif::IsTuple)),
        (b"tuple_size".as_slice(), 1, BuiltIn::Plain(Bif::TupleSize)),
    ];
    found(rows.as_slice(), name, arity)
}

// Comparisons of terms.
fn comparison_built_in(name: &[u8], arity: usize) -> Option<BuiltIn>
    ensures { result ≡ found_in comparison_rows name.now arity }
{
    let rows = [
        (b"=:=".as_slice(), 2, BuiltIn::Plain(Bif::Same)),
        (b"==".as_slice(), 2, BuiltIn::Plain(Bif::Equal)),
        (b"=/=".as_slice(), 2, BuiltIn::Plain(Bif::NotSame)),
        (b"/=".as_slice(), 2, BuiltIn::Plain(Bif::NotEqual)),
        (b"<".as_slice(), 2, BuiltIn::Plain(Bif::Less)),
        (b">".as_slice(), 2, BuiltIn::Plain(Bif::Greater)),
        (b"=<".as_slice(), 2, BuiltIn::Plain(Bif::AtMost)),
        (b">=".as_slice(), 2, BuiltIn::Plain(Bif::AtLeast)),
    ];
    found(rows.as_slice(), name, arity)
}

// Parts of terms, and the own pid.
fn part_built_in(name: &[u8], arity: usize) -> Option<BuiltIn>
    ensures { result ≡ found_in part_rows name.now arity }
{
    let rows = [
        (b"element".as_slice(), 2, BuiltIn::Plain(Bif::Element)),
        (b"hd".as_slice(), 1, BuiltIn::Plain(Bif::Hd)),
        (b"tl".as_slice(), 1, BuiltIn::Plain(Bif::Tl)),
        (b"length".as_slice(), 1, BuiltIn::Plain(Bif::Length)),
        (b"self".as_slice(), 0, BuiltIn::Plain(Bif::SelfPid)),
    ];
    found(rows.as_slice(), name, arity)
}

// What does more than give a value.
fn effect_built_in(name: &[u8], arity: usize) -> Option<BuiltIn>
    ensures { result ≡ found_in effect_rows name.now arity }
{
    let rows = [
        (b"setelement".as_slice(), 3, BuiltIn::Setelement),
        (b"!".as_slice(), 2, BuiltIn::Send),
        (b"send".as_slice(), 2, BuiltIn::Send),
        (b"spawn".as_slice(), 3, BuiltIn::Spawn),
        (b"display".as_slice(), 1, BuiltIn::Display),
        (b"error".as_slice(), 1, BuiltIn::Raise(Class::Error)),
        (b"exit".as_slice(), 1, BuiltIn::Raise(Class::Exit)),
        (b"throw".as_slice(), 1, BuiltIn::Raise(Class::Throw)),
    ];
    found(rows.as_slice(), name, arity)
}

/// The built-in of the module 'erlang' of this name with so many arguments, where there is one.
pub(crate) fn built_in_named(name: &[u8], arity: usize) -> Option<BuiltIn>
    ensures { result ≡ built_in_so_named name.now arity }
{
    let number = number_built_in(name, arity);
    if number.is_some() {
        return number;
    }
    let bit = bit_built_in(name, arity);
    if bit.is_some() {
        return bit;
    }
    let truth = truth_built_in(name, arity);
    if truth.is_some() {
        return truth;
    }
    let test = test_built_in(name, arity);
    if test.is_some() {
        return test;
    }
    let comparison = comparison_built_in(name, arity);
    if comparison.is_some() {
        return comparison;
    }
    let part = part_built_in(name, arity);
    if part.is_some() {
        return part;
    }
    effect_built_in(name, arity)
}
