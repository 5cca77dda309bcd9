//! The text for arguments that ask for no program.

use clap::Error;
use std::alloc::{AllocError, Global};

/// Makes one line of `clap`'s message about a mistake in the arguments: which argument is wrong, or what is missing.
///
/// The message is a paragraph, which may have more lines after its first, and then tips and usage, which are left
/// out.
///
/// # Errors
///
/// * `AllocError`: allocation of the line fails.
pub fn mistake_line(alloc: Global, mistake: &Error) -> Result<String, AllocError> {
    let text = format!(in alloc; "{mistake}")?;
    let text = text.as_str();
    let text = text.strip_prefix("error: ").unwrap_or(text);
    let mut line = String::new(alloc);
    for part in text.lines().take_while(|part| !part.is_empty()) {
        if !line.is_empty() {
            line.push_str(" ")?;
        }
        line.push_str(part.trim_start())?;
    }
    Ok(line)
}
