// The augmentation of the flow along a path of the tree.

ghost use Rattle.std.specs.Prelude.{◌≡◌, ◌≢◌, ℕ, ◌+◌, ◌<◌, ◌≤◌, length, slice_index};
ghost use Rattle.hsp_network.specs.Sums.{only};
ghost use Rattle.hsp_network.specs.Residual.{IsTree, Sound, nodes, raised};

use crate::arcs::{Arcs, Flow, SearchTree};
use crate::push::push;
use crate::residual::arc_tail;

/// Pushes `amount` along the tree's path from the node `root` to the sink. The arcs of the path have reduced cost 0
/// under the raised prices.
pub fn augment(arcs: &Arcs, flow: &mut Flow, tree: &SearchTree, root: u32, amount: u64)
    requires sound { Sound arcs.now flow.old (raised flow.old tree.now) }
    requires tree { IsTree arcs.now flow.old tree.now root (raised flow.old tree.now) }
    requires root_in { root < nodes arcs.now }
    requires much_in { amount ≤ slice_index tree.now.amount.now 0 }
    requires root_has { amount ≤ slice_index flow.old.excess.now root }
    ensures sound { Sound arcs.now flow.new (raised flow.old tree.now) }
    ensures price { flow.new.price.now ≡ flow.old.price.now }
    ensures spent { (v : ℕ) → slice_index flow.new.excess.now v + only root v amount
        ≡ slice_index flow.old.excess.now v }
{
    flow.excess[root as usize] -= amount;
    let mut at = 0;
    while at != root {
        let arc = tree.predecessor[at as usize];
        let along = arcs.heads[arc] == at;
        push(arcs, flow, arc, along, amount);
        at = arc_tail(arcs, arc, along);
    }
}
