// The objects that handles pin.
ghost use Rattle.std.specs.Prelude.{◌≡◌, ℕ, ◌||◌, nat_eq, IfOk};
ghost use Rattle.std.specs.HashSet.{contains};
ghost use Rattle.hd_links.specs.Pins.{is_id, is_pinned_by, pinned_by};

use crate::links::handle_again;
use hd_model::{Id, Memory};
use hd_seen::SeenHandle;
use std::alloc::Global;
use std::collections::HashSet;

/// The identities of all objects that handles pin.
pub fn pinned_objects(alloc: Global, handles: &[SeenHandle]) -> Result<HashSet<u64>, Memory>
    ensures { IfOk result (λ set. (x : ℕ) → contains nat_eq set x ≡ is_pinned_by handles.now x) }
{
    let mut set = HashSet::new(alloc);
    for handle in handles {
        add_pinned(&mut set, *handle)?;
    }
    Ok(set)
}

// Adds the object that a handle pins.
fn add_pinned(set: &mut HashSet<u64>, handle: SeenHandle) -> Result<(), Memory>
    ensures { IfOk result (λ _. (x : ℕ) → contains nat_eq set.new x
        ≡ (contains nat_eq set.old x || is_id x (pinned_by handle))) }
{
    let Some(id) = pinned_target(handle) else {
        return Ok(());
    };
    match set.insert(id.0) {
        Ok(_) => Ok(()),
        Err(_) => Err(Memory),
    }
}

// The object that a handle pins.
fn pinned_target(handle: SeenHandle) -> Option<Id>
    ensures { result ≡ pinned_by handle }
{
    if handle_again(handle).pins() {
        handle.target
    } else {
        None
    }
}
