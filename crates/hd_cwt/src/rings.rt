// Rings of nodes: each node has a next and a previous one. A node alone is its own next.
ghost use Rattle.std.specs.Prelude.{◌≡◌, ℕ, ◌<◌, length, IfOk};
ghost use Rattle.hd_cwt.specs.Inside.{IsRings, exchanged, node_at, turned};

use hd_model::Memory;
use std::alloc::Global;

/// The next and the previous node of each node.
#[derive(Drop)]
pub(crate) struct Rings {
    pub(crate) next: Vec<u32>,
    pub(crate) previous: Vec<u32>,
}

impl Rings {
    /// Nodes that are each alone.
    pub(crate) fn open(alloc: Global, count: u32) -> Result<Rings, Memory>
        ensures next { IfOk result (λ r. length r.next.items ≡ count) }
        ensures previous { IfOk result (λ r. length r.previous.items ≡ count) }
        ensures alone { IfOk result (λ r. (x : ℕ) → x < count → node_at r.next.items x ≡ x) }
        ensures back { IfOk result (λ r. (x : ℕ) → x < count → node_at r.previous.items x ≡ x) }
    {
        let next = counted(alloc, count)?;
        let previous = counted(alloc, count)?;
        Ok(Rings { next, previous })
    }

    /// Exchanges the next nodes of two nodes: it joins two rings, or parts one in two.
    pub(crate) fn exchange(&mut self, a: u32, b: u32)
        requires rings { IsRings self.old.next.items self.old.previous.items }
        requires a { a < length self.old.next.items }
        requires b { b < length self.old.next.items }
        ensures next { self.new.next.items ≡ exchanged self.old.next.items a b }
        ensures previous { self.new.previous.items ≡
            turned self.old.next.items self.old.previous.items a b }
    {
        let after_a = self.next[a as usize];
        let after_b = self.next[b as usize];
        self.next[a as usize] = after_b;
        self.next[b as usize] = after_a;
        self.previous[after_b as usize] = a;
        self.previous[after_a as usize] = b;
    }
}

// The numbers below `count`, in order.
fn counted(alloc: Global, count: u32) -> Result<Vec<u32>, Memory>
    ensures length { IfOk result (λ v. length v.items ≡ count) }
    ensures each { IfOk result (λ v. (x : ℕ) → x < count → node_at v.items x ≡ x) }
{
    let Ok(mut nodes) = Vec::with_capacity(alloc, count as usize) else {
        return Err(Memory);
    };
    for x in 0..count {
        nodes.push_reserved(x);
    }
    Ok(nodes)
}
