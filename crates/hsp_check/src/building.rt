// The network of an instance, as numbers and arcs.

ghost use Rattle.std.specs.Prelude.{◌≡◌, ◌<◌, ◌^◌, IfOk, length};
ghost use Rattle.hsp_check.specs.Index.{AreBare, AreByRow};
ghost use Rattle.hsp_check.specs.Instance.{network_of};
ghost use Rattle.hsp_check.specs.Network.{AreCheap, IsNetwork};
ghost use Rattle.hsp_check.specs.Reach.{indexed_network};

use crate::indexing::{IndexedArcs, arcs_of};
use crate::numbers::{NetworkNumbers, numbers_of};
use hsp_instance::Instance;
use std::alloc::{AllocError, Global};

/// The network of an instance: its numbers, and its arcs row by row, none of them used.
#[derive(Drop)]
pub(crate) struct IndexedNetwork {
    pub(crate) numbers: NetworkNumbers,
    pub(crate) arcs: IndexedArcs,
}

/// The network of an instance.
pub(crate) fn build_network(
    alloc: Global,
    instance: &Instance,
) -> Result<IndexedNetwork, AllocError>
    ensures network { IfOk result (λ network. indexed_network network ≡ network_of instance.now) }
    ensures is { IfOk result (λ _. IsNetwork (network_of instance.now)) }
    ensures cheap { IfOk result (λ _. AreCheap (network_of instance.now)) }
    ensures index { IfOk result (λ network. AreByRow network.arcs) }
    ensures bare { IfOk result (λ network. AreBare network.arcs.arc_flows.items) }
    ensures few { IfOk result (λ network. length network.arcs.arc_flows.items < 2 ^ 32) }
{
    let numbers = numbers_of(alloc, instance)?;
    let arcs = arcs_of(alloc, instance)?;
    Ok(IndexedNetwork { numbers, arcs })
}
