// Bytes of a text that is made in memory.
ghost use Rattle.std.specs.Prelude.{◌≡◌, ◌++◌, IfOk};

use hd_print::Line;
use std::alloc::AllocError;

/// Appends words.
pub(crate) fn push(text: &mut Vec<u8>, words: &str) -> Result<(), AllocError>
    ensures { IfOk result (λ _. text.new.items ≡ text.old.items ++ words.now) }
{
    text.extend_from_slice(words.as_bytes())
}

/// Appends a line.
pub(crate) fn push_line(text: &mut Vec<u8>, line: &Line) -> Result<(), AllocError>
    ensures { IfOk result (λ _. text.new.items ≡ text.old.items ++ line.now) }
{
    text.extend_from_slice(line.as_bytes())
}
