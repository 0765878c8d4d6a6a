use crate::fault::CaseFault;

/// Appends the text that this notation stands for: `~N~` is the byte N, and `~N*PIECE~` the piece N
/// times, where `#` in it is the number of each, from 0. All else stands for itself.
pub fn push_text(out: &mut Vec<u8>, notation: &str) -> Result<(), CaseFault> {
    let mut inside = true;
    for piece in notation.split('~') {
        inside = !inside;
        if inside {
            push_made(out, piece)?;
        } else {
            out.extend_from_slice(piece.as_bytes())?;
        }
    }
    if inside {
        return Err(CaseFault::Form);
    }
    Ok(())
}

/// Appends what stands between two `~`.
fn push_made(out: &mut Vec<u8>, made: &str) -> Result<(), CaseFault> {
    match made.split_once('*') {
        Some((count, piece)) => {
            for number in 0..number_in(count)? {
                push_numbered(out, piece, number)?;
            }
        }
        None => out.push(byte_in(made)?)?,
    }
    Ok(())
}

/// Appends the piece, with this number where `#` stands.
pub fn push_numbered(out: &mut Vec<u8>, piece: &str, number: u32) -> Result<(), CaseFault> {
    let mut is_first = true;
    for part in piece.split('#') {
        if !is_first {
            let digits = format!(in *out.allocator(); "{number}")?;
            out.extend_from_slice(digits.as_bytes())?;
        }
        is_first = false;
        out.extend_from_slice(part.as_bytes())?;
    }
    Ok(())
}

/// The number that is written so.
pub fn number_in(digits: &str) -> Result<u32, CaseFault> {
    match digits.parse::<u32>() {
        Ok(number) => Ok(number),
        Err(_) => Err(CaseFault::Form),
    }
}

fn byte_in(digits: &str) -> Result<u8, CaseFault> {
    match digits.parse::<u8>() {
        Ok(byte) => Ok(byte),
        Err(_) => Err(CaseFault::Form),
    }
}
