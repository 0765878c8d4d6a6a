ghost use Rattle.std.specs.Prelude.{◌≡◌};
ghost use Rattle.hy_core.specs.Tokens.{escaped};
ghost use Rattle.core_scan.specs.code.Scan.{longer, after_backslash, after_caret, after_digit, after_digits, escaping};

use crate::byte::octal;
use crate::state::{Escape, Escaping};

/// What one more byte makes of an escape.
pub fn escape(read: Escape, b: u8) -> Escaping
    ensures { result ≡ escaping read b }
{
    match read {
        Escape::Begun => begin(b),
        Escape::Control => control(b),
        Escape::OneDigit(value) => second_digit(value, b),
        Escape::TwoDigits(value) => third_digit(value, b),
    }
}

#[tactic(auto, unfolding(hy_core::specs::Bytes::is_octal))]
fn begin(b: u8) -> Escaping
    ensures { result ≡ after_backslash b }
{
    if b == b'^' {
        return Escaping::Open(Escape::Control);
    }
    match letter(b) {
        Some(byte) => Escaping::Closed(byte),
        None if octal(b) => Escaping::Open(Escape::OneDigit(b - b'0')),
        None => Escaping::Wrong,
    }
}

// What `\` and this byte alone stand for.
#[tactic(auto, unfolding(hy_core::specs::Tokens::escaped))]
fn letter(b: u8) -> Option<u8>
    ensures { result ≡ escaped b }
{
    match b {
        b'b' => Some(8),
        b'd' => Some(127),
        b'e' => Some(27),
        b'f' => Some(12),
        b'n' => Some(b'\n'),
        b'r' => Some(b'\r'),
        b's' => Some(b' '),
        b't' => Some(b'\t'),
        b'v' => Some(11),
        b'"' | b'\'' | b'\\' => Some(b),
        _ => None,
    }
}

fn control(b: u8) -> Escaping
    ensures { result ≡ after_caret b }
{
    if 64 <= b && b <= 95 {
        Escaping::Closed(b - 64)
    } else {
        Escaping::Wrong
    }
}

fn second_digit(value: u8, b: u8) -> Escaping
    ensures { result ≡ after_digit value b }
{
    if !octal(b) {
        return Escaping::Over(value);
    }
    match with_digit(value, b) {
        Some(longer) => Escaping::Open(Escape::TwoDigits(longer)),
        None => Escaping::Wrong,
    }
}

fn third_digit(value: u8, b: u8) -> Escaping
    ensures { result ≡ after_digits value b }
{
    if !octal(b) {
        return Escaping::Over(value);
    }
    match with_digit(value, b) {
        Some(longer) => Escaping::Closed(longer),
        None => Escaping::Wrong,
    }
}

// The value with an octal digit behind it, where it is still a byte.
fn with_digit(value: u8, b: u8) -> Option<u8>
    ensures { result ≡ longer value b }
{
    let longer = 8 * u16::from(value) + u16::from(b.saturating_sub(b'0'));
    u8::try_from(longer).ok()
}
