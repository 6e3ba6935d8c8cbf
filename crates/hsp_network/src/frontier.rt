// What a frontier is: the nodes that a search has reached and not settled.

ghost use Rattle.std.specs.Prelude.{◌≡◌, ℕ, ◌+◌, ◌<◌, ◌≤◌, ◌↔◌, IfOk, IsOk, IsTrue, OnOk, IfSome, IsSomeAnd, IfNone};
ghost use Rattle.std.specs.Prelude.{OnErr, Option};
ghost use Rattle.hsp_network.specs.Frontier.{Changes, HoldsNone, IsLeast};

use std::alloc::{AllocError, Global};

/// The nodes that a search has reached and not yet settled, with their keys. It is a finite map from nodes to keys,
/// like the priority queue of Dijkstra's algorithm (Network Flows, section 4.5).
///
/// A refused call leaves the map as it was.
pub trait Frontier: Sized + Drop {
    /// The key of each node, or `None` where it is not held.
    ghost held: { Self → ℕ → Option ℕ };

    /// The number of nodes, which are numbered from 0.
    ghost node_count: { Self → ℕ };

    /// How many calls are certain not to be refused.
    ghost sure: { Self → ℕ };

    /// Whether a map for this number of nodes may be asked for.
    ghost may_have: { ℕ → Type 0 };

    /// An empty map for nodes below `nodes`.
    ///
    /// # Errors
    ///
    /// An `AllocError` where memory runs out.
    fn with_nodes(alloc: Global, nodes: u32) -> Result<Self, AllocError>
        requires { may_have nodes }
        ensures empty { IfOk result (λ made. HoldsNone (held made)) }
        ensures nodes { IfOk result (λ made. node_count made ≡ nodes) };

    /// Adds a node that is not held.
    ///
    /// # Errors
    ///
    /// An `AllocError` where memory runs out. Then nothing changes.
    fn put(&mut self, node: u32, key: u64) -> Result<(), AllocError>
        requires node { node < node_count self.old }
        requires free { held self.old node ≡ None }
        ensures put { OnOk result (Changes (held self.old) (held self.new) node (Some key)) }
        ensures refused { OnErr result (held self.new ≡ held self.old) }
        ensures nodes { node_count self.new ≡ node_count self.old }
        ensures succeeds { 0 < sure self.old → IsOk result }
        ensures sure { sure self.old ≤ sure self.new + 1 };

    /// Lowers the key of a node that is held.
    ///
    /// # Errors
    ///
    /// An `AllocError` where memory runs out. Then nothing changes.
    fn lower(&mut self, node: u32, key: u64) -> Result<(), AllocError>
        requires held { IsSomeAnd (held self.old node) (λ present. key ≤ present) }
        ensures lower { OnOk result (Changes (held self.old) (held self.new) node (Some key)) }
        ensures refused { OnErr result (held self.new ≡ held self.old) }
        ensures nodes { node_count self.new ≡ node_count self.old }
        ensures succeeds { 0 < sure self.old → IsOk result }
        ensures sure { sure self.old ≤ sure self.new + 1 };

    /// Removes an entry with the least key and returns it, or returns `None` where no node is held.
    fn take_least(&mut self) -> Option<(u32, u64)>
        ensures least { IfSome result (λ taken. IsLeast (held self.old) taken.0 taken.1) }
        ensures took { IfSome result
            (λ taken. Changes (held self.old) (held self.new) taken.0 None) }
        ensures none { IfNone result (HoldsNone (held self.old)) }
        ensures none_new { IfNone result (held self.new ≡ held self.old) }
        ensures nodes { node_count self.new ≡ node_count self.old };

    /// Whether no node is held.
    fn is_empty(&self) -> bool
        ensures { IsTrue result ↔ HoldsNone (held self.now) };

    /// Removes all entries.
    fn clear(&mut self)
        ensures empty { HoldsNone (held self.new) }
        ensures nodes { node_count self.new ≡ node_count self.old };

    /// While this is above 0, `put` and `lower` are not refused. Each of them lowers it by at most 1.
    fn spare(&self) -> u64
        ensures { result ≡ sure self.now };
}
