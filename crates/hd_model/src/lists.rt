// Lists whose memory is taken at once.
ghost use Rattle.std.specs.Prelude.{◌≡◌, replicate, IfOk};

use crate::data::Memory;
use std::alloc::Global;

/// A list of `count` copies of a value.
pub fn filled<T: Copy + Drop>(alloc: Global, value: T, count: u32) -> Result<Vec<T>, Memory>
    ensures { IfOk result (λ items. items.items ≡ replicate count value) }
{
    let mut items = Vec::new(alloc);
    match items.resize(count as usize, value) {
        Ok(()) => Ok(items),
        Err(_) => Err(Memory),
    }
}
