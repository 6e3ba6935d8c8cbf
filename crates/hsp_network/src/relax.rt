// The relaxation of a node: a way that is shorter than the one that it has is taken.

ghost use Rattle.std.specs.Prelude.{◌≡◌, ℕ, ◌≤◌, length, OnOk};
ghost use Rattle.hsp_network.specs.Search.{MayBeOffered, Offered};

use crate::arcs::{Offer, SearchTree};
use crate::frontier::Frontier;
use std::alloc::AllocError;

/// Offers a way to a node. The node takes it if it is shorter than the way that the node has, if any.
pub fn relax<F: Frontier>(
    frontier: &mut F,
    tree: &mut SearchTree,
    offer: Offer,
) -> Result<(), AllocError>
    requires may { MayBeOffered (F.held frontier.old) tree.old offer }
    requires count { length tree.old.distance.now ≤ F.node_count frontier.old }
    ensures ok { OnOk result (Offered (F.held frontier.old)
        (F.held frontier.new) tree.old tree.new offer) }
    ensures count { F.node_count frontier.new ≡ F.node_count frontier.old }
{
    let to = offer.to as usize;
    if offer.distance >= tree.distance[to] {
        return Ok(());
    }
    if tree.distance[to] == u64::MAX {
        frontier.put(offer.to, offer.distance)?;
    } else {
        frontier.lower(offer.to, offer.distance)?;
    }
    tree.distance[to] = offer.distance;
    tree.predecessor[to] = offer.arc;
    tree.amount[to] = offer.amount;
    tree.depth[to] = tree.depth[offer.from as usize] + 1;
    Ok(())
}
