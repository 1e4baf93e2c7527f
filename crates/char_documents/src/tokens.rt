//! The tokens of a text.
ghost use Rattle.std.specs.Prelude.{◌≡◌, ◌≤◌, ◌^◌, ◌<◌, ◌++◌, length, chars, IfOk, OnOk};
ghost use Rattle.char_documents.specs.Tokens.{tokens_of};
ghost use Rattle.char_documents.specs.TokenRuns.{closed};

use mark_base::{Frag, Memory};
use std::alloc::Global;

/// Adds the token of the run that ends at this place, where one is open.
fn close(tokens: &mut Vec<Frag>, run: Option<u32>, place: u32) -> Result<(), Memory>
    ensures { OnOk result (tokens.new.items ≡ tokens.old.items ++ closed run place) }
{
    if let Some(start) = run {
        tokens.push(Frag { start, end: place })?;
    }
    Ok(())
}

/// The tokens of a text, in order. Cost: its length.
pub fn tokens(alloc: Global, text: &str) -> Result<Vec<Frag>, Memory>
    requires { length (chars text.now) < 2 ^ 32 }
    ensures { IfOk result (λ tokens. tokens.items ≡ tokens_of (chars text.now)) }
{
    let mut tokens = Vec::new(alloc);
    let mut run = None;
    let mut place = 0u32;
    for c in text.chars() {
        if c.is_whitespace() {
            close(&mut tokens, run, place)?;
            run = None;
        } else {
            run = Some(run.unwrap_or(place));
        }
        place += 1;
    }
    close(&mut tokens, run, place)?;
    Ok(tokens)
}
