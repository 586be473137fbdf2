// Whether a text is an identifier.
ghost use Rattle.std.specs.Prelude.{◌≡◌, chars, IfOk, IsOk};
ghost use Rattle.std.specs.Str.{IsAscii};
ghost use Rattle.unicode_normalization.specs.Forms.{is_in_form, Nfkc};
ghost use Rattle.identifiers.specs.Identifiers.{is_identifier};

use crate::form::has_form;
use lists::NoMemory;
use std::alloc::Global;
use unicode_normalization::is_nfkc;

// Whether a text is in NFKC.
fn is_in_nfkc(alloc: Global, text: &str) -> Result<bool, NoMemory>
    ensures value { IfOk result (λ b. b ≡ is_in_form Nfkc (chars text.now)) }
    ensures ascii { IsAscii text.now → IsOk result }
{
    if text.is_ascii() {
        return Ok(true);
    }
    Ok(is_nfkc(alloc, text)?)
}

/// Whether a text is an identifier; keywords are. Of a text of ASCII it is told without memory.
pub fn is_identifier(alloc: Global, text: &str) -> Result<bool, NoMemory>
    ensures value { IfOk result (λ b. b ≡ is_identifier text.now) }
    ensures ascii { IsAscii text.now → IsOk result }
{
    if has_form(text) {
        is_in_nfkc(alloc, text)
    } else {
        Ok(false)
    }
}
