//! Bodies, as cases spell them.
use crate::case_fault::CaseFault;
use std::alloc::Global;

/// The text of a body: `\t` is a TAB, `\n` a line feed, and `\\` a backslash.
pub(crate) fn body_of(alloc: Global, spelt: &str) -> Result<String, CaseFault> {
    let mut body = String::new(alloc);
    let mut is_marked = false;
    for letter in spelt.chars() {
        if is_marked {
            body.push(match letter {
                't' => '\t',
                'n' => '\n',
                other => other,
            })?;
            is_marked = false;
        } else if letter == '\\' {
            is_marked = true;
        } else {
            body.push(letter)?;
        }
    }
    Ok(body)
}
