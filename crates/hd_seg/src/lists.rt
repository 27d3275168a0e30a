// Lists that grow.
ghost use Rattle.std.specs.Prelude.{◌≡◌, ◌++◌, ◌-◌, MatchResult, length, replicate};

use hd_model::Memory;

/// At least `count` values: those that come are copies of one.
pub(crate) fn lengthen<T: Copy + Drop>(
    items: &mut Vec<T>,
    value: T,
    count: u32,
) -> Result<(), Memory>
    ensures { MatchResult result
        (λ _. items.new.items ≡
        items.old.items ++ replicate (count - length items.old.items) value)
        (λ _. items.new.items ≡ items.old.items) }
{
    if count as usize <= items.len() {
        return Ok(());
    }
    match items.resize(count as usize, value) {
        Ok(()) => Ok(()),
        Err(_) => Err(Memory),
    }
}
