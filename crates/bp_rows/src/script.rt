//! Lines of scripts, with a short form for long ones.

use std::alloc::AllocError;

/// The greatest number of copies that a line asks for at once.
const MOST_COPIES: u32 = 1_000_000;

/// Adds a text, in which `{N*PIECE}` means N copies of PIECE. Returns false if a `{` begins no such form.
pub fn expand(text: &str, script: &mut String) -> Result<bool, AllocError> {
    let mut parts = text.split('{');
    script.push_str(parts.next().unwrap_or(""))?;
    for part in parts {
        let Some((copies, rest)) = part.split_once('}') else {
            return Ok(false);
        };
        if !add_copies(copies, script)? {
            return Ok(false);
        }
        script.push_str(rest)?;
    }
    Ok(true)
}

fn add_copies(copies: &str, script: &mut String) -> Result<bool, AllocError> {
    let Some((count, piece)) = copies.split_once('*') else {
        return Ok(false);
    };
    let Ok(count) = count.parse::<u32>() else {
        return Ok(false);
    };
    if count > MOST_COPIES {
        return Ok(false);
    }
    for _ in 0..count {
        script.push_str(piece)?;
    }
    Ok(true)
}
