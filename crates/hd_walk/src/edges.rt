// The edges of a graph.
ghost use Rattle.std.specs.Prelude.{◌≡◌, [], IfOk};
ghost use Rattle.hd_walk.specs.Walk.{AreTargets};

use std::alloc::AllocError;

/// The edges of a graph, whose nodes are numbers: addresses, identities or indices.
pub trait Edges {
    ghost use Rattle.std.specs.Prelude.{ℕ};

    /// Which numbers are nodes.
    ghost node: { Self → ℕ → Type 0 };

    /// From which node an edge leads to which.
    ghost edge: { Self → ℕ → ℕ → Type 0 };

    /// In which order targets of a node are listed.
    ghost order: { ℕ → ℕ → Type 0 };

    /// Lists what edges lead to from a node.
    fn list(&self, at: u64, targets: &mut Vec<u64>) -> Result<(), AllocError>
        requires node { node self.now at }
        requires none { targets.old.items ≡ [] }
        ensures { IfOk result (λ _. AreTargets (node self.now) (edge self.now at) order
            targets.new.items) };
}
