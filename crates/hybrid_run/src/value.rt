ghost use Rattle.std.specs.Prelude.{◌≡◌, [], ◌∷◌, ◌++◌, codes, IfOk, OnOk};
ghost use Rattle.hy_core.specs.Output.{end_text, outcome_line as outcome_line_of};
ghost use Rattle.hybrid_run.specs.Arithmetic.{value_text, reason_text, end_of};

use hy_terms::{Memory, push_atom, push_int};
use std::alloc::Global;

/// A value of the arithmetic forms.
#[derive(Clone, Copy, Debug, PartialEq, Eq)]
pub enum Value {
    Int(i64),
    /// What `display` gives: the atom `'true'`.
    True,
}

/// Why an expression raises an error.
#[derive(Clone, Copy, Debug, PartialEq, Eq)]
pub enum Reason {
    /// An operand is no number.
    Badarith,
    /// A number is outside the range from -2^59 to 2^59 - 1.
    SystemLimit,
}

/// How an evaluation ends.
#[derive(Clone, Copy, Debug, PartialEq, Eq)]
pub enum Ending {
    Gives(Value),
    Raises(Reason),
}

/// Appends the text of a value.
pub fn push_value(out: &mut Vec<u8>, value: Value) -> Result<(), Memory>
    ensures { OnOk result (out.new.items ≡ out.old.items ++ value_text value) }
{
    match value {
        Value::Int(n) => push_int(out, n),
        Value::True => push_atom(out, b"true"),
    }
}

/// Appends the text of a reason.
pub fn push_reason(out: &mut Vec<u8>, reason: Reason) -> Result<(), Memory>
    ensures { OnOk result (out.new.items ≡ out.old.items ++ reason_text reason) }
{
    match reason {
        Reason::Badarith => push_atom(out, b"badarith"),
        Reason::SystemLimit => push_atom(out, b"system_limit"),
    }
}

/// What a value prints as: its text and a line feed.
pub fn printed_text(alloc: Global, value: Value) -> Result<Vec<u8>, Memory>
    ensures { IfOk result (λ text. text.items ≡ value_text value ++ 10 ∷ []) }
{
    let mut text = Vec::new(alloc);
    push_value(&mut text, value)?;
    text.push(b'\n')?;
    Ok(text)
}

/// The outcome line of the first process.
pub fn outcome_line(alloc: Global, ending: Ending) -> Result<Vec<u8>, Memory>
    ensures { IfOk result (λ line. line.items ≡ outcome_line_of 0 (end_of ending)) }
{
    let mut line = Vec::new(alloc);
    push_end(&mut line, ending)?;
    line.push(b'\n')?;
    Ok(line)
}

// Appends the outcome line without its line feed.
#[tactic(auto, using(std::proofs::Common::append_assoc))]
fn push_end(line: &mut Vec<u8>, ending: Ending) -> Result<(), Memory>
    ensures { OnOk result
        (line.new.items ≡ line.old.items ++ (codes "0 " ++ end_text (end_of ending))) }
{
    match ending {
        Ending::Gives(value) => {
            line.extend_from_slice(b"0 ended ")?;
            push_value(line, value)
        }
        Ending::Raises(reason) => {
            line.extend_from_slice(b"0 raised error ")?;
            push_reason(line, reason)
        }
    }
}
