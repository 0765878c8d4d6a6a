ghost use Rattle.std.specs.Prelude.{◌≡◌, slice_get};
ghost use Rattle.hy_terms.specs.Range.{is_in_range};
ghost use Rattle.hy_ir.specs.Checking.{all_checked, checked, guard_checked, takes_as};
ghost use Rattle.hy_ir.specs.Checking.{test_checked, tests_checked};
ghost use Rattle.hy_ir.specs.Checking.{are_registers as all_below, is_built as built_at};
ghost use Rattle.hy_ir.specs.Checking.{is_constant as constant_checked};
ghost use Rattle.hy_ir.specs.Checking.{is_set_site as set_site, is_text_site as text_site};
ghost use Rattle.hy_ir.specs.Meaning.{kind_at};
ghost use Rattle.hy_ir.specs.View.{code_of};

use crate::arity::arity;
use crate::code::{Code, Constant, Guard, Op, Test};
use hy_core::SiteKind;
use hy_terms::{GREATEST_NUMBER, LEAST_NUMBER};
use sqlite_items::at;

// The most parts of a tuple and the most bytes of a string.
const MOST_PARTS: usize = 1_048_576;

// The most arguments of a spawn.
const MOST_ARGUMENTS: usize = 255;

// Each is below the number of registers.
pub fn are_registers(list: &[u32], registers: u32) -> bool
    ensures { result ≡ all_below registers list.now }
{
    for register in list {
        if *register >= registers {
            return false;
        }
    }
    true
}

// The function is there, and takes so many arguments.
pub fn takes(code: &Code, function: u32, arguments: usize) -> bool
    ensures { result ≡ takes_as (slice_get (code_of code.now).functions function) arguments }
{
    match at(code.functions.as_slice(), function as usize) {
        Some(function) => arguments == function.params as usize,
        None => false,
    }
}

fn is_built(code: &Code, site: u32, parts: usize) -> bool
    ensures { result ≡ built_at (kind_at (code_of code.now).sites site) parts }
{
    match at(code.sites.as_slice(), site as usize) {
        Some(info) => match info.kind {
            SiteKind::Cons => parts == 2,
            SiteKind::Tuple => parts <= MOST_PARTS,
            SiteKind::String | SiteKind::Setelement => false,
        },
        None => false,
    }
}

fn is_text_site(code: &Code, site: u32) -> bool
    ensures { result ≡ text_site (kind_at (code_of code.now).sites site) }
{
    match at(code.sites.as_slice(), site as usize) {
        Some(info) => match info.kind {
            SiteKind::String => true,
            SiteKind::Cons | SiteKind::Tuple | SiteKind::Setelement => false,
        },
        None => false,
    }
}

fn is_set_site(code: &Code, site: u32) -> bool
    ensures { result ≡ set_site (kind_at (code_of code.now).sites site) }
{
    match at(code.sites.as_slice(), site as usize) {
        Some(info) => match info.kind {
            SiteKind::Setelement => true,
            SiteKind::Cons | SiteKind::Tuple | SiteKind::String => false,
        },
        None => false,
    }
}

fn is_constant(value: Constant) -> bool
    ensures { result ≡ constant_checked value }
{
    match value {
        Constant::Int(n) => LEAST_NUMBER <= n && n <= GREATEST_NUMBER,
        Constant::Atom(_) | Constant::Nil => true,
    }
}

// The registers and what else an operation names.
pub fn is_valid_operation(code: &Code, registers: u32, operation: &Op) -> bool
    ensures { result ≡ checked (code_of code.now) registers operation.now }
{
    match operation {
        Op::Const { out, value } => *out < registers && is_constant(*value),
        Op::Move { out, from } => *out < registers && *from < registers,
        Op::Build { site, out, args } => {
            *out < registers
                && are_registers(args.as_slice(), registers)
                && is_built(code, *site, args.len())
        }
        Op::Text { site, out, text } => {
            let bytes = text.as_slice().len();
            *out < registers && is_text_site(code, *site) && 1 <= bytes && bytes <= MOST_PARTS
        }
        Op::Set {
            site,
            out,
            index,
            tuple,
            value,
        } => {
            *out < registers
                && *index < registers
                && *tuple < registers
                && *value < registers
                && is_set_site(code, *site)
        }
        Op::Bif { out, bif, args } => {
            *out < registers
                && are_registers(args.as_slice(), registers)
                && args.len() == arity(*bif)
        }
        Op::Call {
            out,
            function,
            args,
        } => {
            *out < registers
                && are_registers(args.as_slice(), registers)
                && takes(code, *function, args.len())
        }
        Op::Send {
            out,
            to,
            message,
            ..
        } => *out < registers && *to < registers && *message < registers,
        Op::Spawn {
            out,
            function,
            args,
            ..
        } => {
            *out < registers
                && are_registers(args.as_slice(), registers)
                && takes(code, *function, args.len())
                && args.len() <= MOST_ARGUMENTS
        }
        Op::Show { out, value } => *out < registers && *value < registers,
    }
}

fn are_valid_operations(code: &Code, registers: u32, operations: &[Op]) -> bool
    ensures { result ≡ all_checked (code_of code.now) registers operations.now }
{
    for operation in operations {
        if !is_valid_operation(code, registers, operation) {
            return false;
        }
    }
    true
}

fn is_valid_test(code: &Code, registers: u32, test: &Test) -> bool
    ensures { result ≡ test_checked (code_of code.now) registers test.now }
{
    match test {
        Test::Bind { out, from } => *out < registers && *from < registers,
        Test::IsInt { from, .. }
        | Test::IsAtom { from, .. }
        | Test::IsNil { from }
        | Test::IsText { from, .. } => *from < registers,
        Test::IsTuple { from, size, outs } => {
            *from < registers
                && are_registers(outs.as_slice(), registers)
                && outs.len() == *size as usize
        }
        Test::IsCons { from, head, tail } => {
            *from < registers && *head < registers && *tail < registers
        }
    }
}

pub fn are_valid_tests(code: &Code, registers: u32, tests: &[Test]) -> bool
    ensures { result ≡ tests_checked (code_of code.now) registers tests.now }
{
    for test in tests {
        if !is_valid_test(code, registers, test) {
            return false;
        }
    }
    true
}

pub fn is_valid_guard(code: &Code, registers: u32, guard: &Guard) -> bool
    ensures { result ≡ guard_checked (code_of code.now) registers guard.now }
{
    are_valid_operations(code, registers, guard.operations.as_slice()) && guard.register < registers
}
