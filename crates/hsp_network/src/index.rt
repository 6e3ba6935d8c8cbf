// The arcs of each node in chains, by their tails and by their heads.

ghost use Rattle.std.specs.Prelude.{◌≡◌, ℕ, ◌<◌, IfOk, length, slice_index};
ghost use Rattle.hsp_network.specs.Index.{AreChains};

use std::alloc::{AllocError, Global};

/// The lists of the chains of arcs.
#[derive(Drop)]
pub struct ChainLists {
    pub lasts: Vec<usize>,
    pub before: Vec<usize>,
}

/// Chains the arcs that have an end in common. Each chain leads from the last of its arcs back, arc by arc.
pub fn chain_arcs(alloc: Global, ends: &[u32], nodes: usize) -> Result<ChainLists, AllocError>
    requires few { length ends.now < 4294967296 }
    requires inside { (k : ℕ) → k < length ends.now → slice_index ends.now k < nodes }
    ensures { IfOk result (λ made. AreChains nodes ends.now made.lasts.items made.before.items) }
{
    let mut lasts = vec![in alloc; 0; nodes]?;
    let mut before = vec![in alloc; 0; ends.len()]?;
    for arc in 0..ends.len() {
        let end = ends[arc] as usize;
        before[arc] = lasts[end];
        lasts[end] = arc + 1;
    }
    Ok(ChainLists { lasts, before })
}
