ghost use Rattle.std.specs.Prelude.{◌≡◌, ◌++◌, ◌∷◌, [], OnOk, OnErr, take, vec_len};
ghost use Rattle.std.specs.List.{flat_map};
ghost use Rattle.hy_terms.specs.Texts.{int_text, atom_text, pid_text, escaped, octal_digits, quoted};

use crate::Memory;

/// Appends a number in decimal, with a minus sign where it is negative.
pub fn push_int(out: &mut Vec<u8>, n: i64) -> Result<(), Memory>
    ensures ok { OnOk result (out.new.items ≡ out.old.items ++ int_text n) }
    ensures err { OnErr result (out.new.items ≡ out.old.items) }
{
    let text = format!(in *out.allocator(); "{n}")?;
    out.extend_from_slice(text.as_bytes())?;
    Ok(())
}

/// Appends the text of a pid, `<0.N.0>`.
pub fn push_pid(out: &mut Vec<u8>, pid: u64) -> Result<(), Memory>
    ensures ok { OnOk result (out.new.items ≡ out.old.items ++ pid_text pid) }
    ensures err { OnErr result (out.new.items ≡ out.old.items) }
{
    let text = format!(in *out.allocator(); "<0.{pid}.0>")?;
    out.extend_from_slice(text.as_bytes())?;
    Ok(())
}

/// Appends an atom of this text in single quotes.
pub fn push_atom(out: &mut Vec<u8>, text: &[u8]) -> Result<(), Memory>
    ensures ok { OnOk result (out.new.items ≡ out.old.items ++ atom_text text.now) }
    ensures err { OnErr result (out.new.items ≡ out.old.items) }
{
    push_quoted(out, b'\'', text)
}

/// Appends a text between two quotes.
///
/// The quote and `\` stand behind a `\`, other bytes from 32 to 126 as they are, and all the rest
/// as `\` and three octal digits.
pub fn push_quoted(out: &mut Vec<u8>, quote: u8, text: &[u8]) -> Result<(), Memory>
    ensures ok { OnOk result (out.new.items ≡ out.old.items ++ quoted quote text.now) }
    ensures err { OnErr result (out.new.items ≡ out.old.items) }
{
    let len = out.len();
    let done = push_pieces(out, quote, text);
    if done.is_err() {
        out.truncate(len);
    }
    done
}

// Appends a text between two quotes, or some part of it.
fn push_pieces(out: &mut Vec<u8>, quote: u8, text: &[u8]) -> Result<(), Memory>
    ensures ok { OnOk result (out.new.items ≡ out.old.items ++ quoted quote text.now) }
    ensures front { OnErr result (take (vec_len out.old) out.new.items ≡ out.old.items) }
{
    out.push(quote)?;
    for byte in text {
        push_escaped(out, quote, *byte)?;
    }
    out.push(quote)?;
    Ok(())
}

fn push_escaped(out: &mut Vec<u8>, quote: u8, byte: u8) -> Result<(), Memory>
    ensures ok { OnOk result (out.new.items ≡ out.old.items ++ escaped quote byte) }
    ensures err { OnErr result (out.new.items ≡ out.old.items) }
{
    if byte == quote || byte == b'\\' {
        out.extend_from_slice(&[b'\\', byte])?;
    } else if (32..=126).contains(&byte) {
        out.push(byte)?;
    } else {
        out.extend_from_slice(&octal_escape(byte))?;
    }
    Ok(())
}

fn octal_escape(byte: u8) -> [u8; 4]
    ensures { result ≡ 92 ∷ octal_digits byte }
{
    [
        b'\\',
        b'0' + byte / 64,
        b'0' + byte / 8 % 8,
        b'0' + byte % 8,
    ]
}

#[cfg(test)]
mod tests {
    use super::*;
    use std::test::Fail;

    #[test]
    fn texts_of_scalars(rt: HostRuntime) -> Result<(), Fail> {
        let mut out = Vec::new(rt.alloc());
        push_int(&mut out, 0)?;
        push_int(&mut out, -576460752303423488)?;
        push_pid(&mut out, 12)?;
        push_atom(&mut out, b"it's a \\ \"x\"~\x7f\n\xff\x00")?;
        push_quoted(&mut out, b'"', b"it's \"x\"")?;
        assert_eq!(rt;
            out.as_slice(),
            b"0-576460752303423488<0.12.0>'it\\'s a \\\\ \"x\"~\\177\\012\\377\\000'\"it's \\\"x\\\"\"".as_slice()
        );
        Ok(())
    }
}
