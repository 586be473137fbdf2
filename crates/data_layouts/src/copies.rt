// Copies of text.
ghost use Rattle.std.specs.Prelude.{◌≡◌, IfOk};

use amh_host::{NoMemory, Text};
use std::alloc::Global;

/// A text with the same bytes.
pub(crate) fn copied(alloc: Global, text: &Text) -> Result<Text, NoMemory>
    ensures { IfOk result (λ copy. copy ≡ text.now) }
{
    let mut copy = Text::new(alloc);
    copy.push(text.as_str())?;
    Ok(copy)
}
