// Chains are read back from a trail.
ghost use Rattle.std.specs.Prelude.{◌≡◌, ◌+◌, ◌<◌, ◌≤◌, length, reverse, Some, IfOk};
ghost use Rattle.hd_walk.specs.Trail.{IsFalling, IsReadBack};

use crate::trail::Trail;
use std::alloc::{AllocError, Global};

/// The chain by which found node `last` was found, from its start.
pub fn read_back(alloc: Global, trail: &Trail, last: usize) -> Result<Vec<u64>, AllocError>
    requires last { last < length trail.now }
    requires falling { IsFalling trail.now }
    ensures chain { IfOk result (λ chain. IsReadBack trail.now (Some last)
        (reverse chain.items)) }
    ensures few { IfOk result (λ chain. length chain.items ≤ last + 1) }
{
    let mut chain = backwards(alloc, trail, last)?;
    chain.reverse();
    Ok(chain)
}

// The chain from its end.
fn backwards(alloc: Global, trail: &Trail, last: usize) -> Result<Vec<u64>, AllocError>
    requires last { last < length trail.now }
    requires falling { IsFalling trail.now }
    ensures chain { IfOk result (λ chain. IsReadBack trail.now (Some last) chain.items) }
    ensures few { IfOk result (λ chain. length chain.items ≤ last + 1) }
{
    let mut chain = Vec::new(alloc);
    let mut next = Some(last);
    while let Some(i) = next {
        let found = trail.get(i);
        chain.push(found.at)?;
        next = found.before;
    }
    Ok(chain)
}
