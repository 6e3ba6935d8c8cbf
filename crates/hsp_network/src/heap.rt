// A frontier over a binary heap.

ghost use Rattle.std.specs.Prelude.{◌≡◌, ℕ, ◌<◌, ◌≤◌, ◌-◌, ◌↔◌, IsTrue, ⊤, true, Option, Some, None, slice_index_or};
ghost use Rattle.std.specs.Prelude.{length, vec_len};
ghost use Rattle.std.specs.List.{list_any};
ghost use Rattle.std.specs.BinaryHeap.{heap_capacity, heap_items, heap_len, IsHeap, IsHeap-prop};
ghost use Rattle.hsp_network.specs.Frontier.{Pairs, is_pair, later_pair};

use crate::frontier::Frontier;
use std::alloc::{AllocError, Global};
use std::cmp::Reverse;
use std::collections::BinaryHeap;

/// A frontier that keeps the key of each held node, and pairs of key and node in a heap.
///
/// A lowered key puts a second pair on the heap. A pair whose key isn't its node's present key is stale, and is passed
/// over.
#[derive(Drop)]
pub struct HeapFrontier {
    keys: Vec<Option<u64>>,
    pairs: BinaryHeap<Reverse<(u64, u32)>>,
    ghost ordered: { IsHeap later_pair (heap_items pairs) } by { IsHeap-prop _ _ },
    ghost paired: { Pairs (λ v. slice_index_or keys.items v None) (heap_items pairs) },
}

impl Frontier for HeapFrontier {
    ghost held = { λ f v. slice_index_or f.keys.items v None };

    ghost node_count = { λ f. vec_len f.keys };

    ghost sure = { λ f. heap_capacity f.pairs - heap_len f.pairs };

    ghost may_have = { λ _. ⊤ };

    fn with_nodes(alloc: Global, nodes: u32) -> Result<HeapFrontier, AllocError> {
        let keys = vec![in alloc; None; nodes as usize]?;
        Ok(HeapFrontier {
            keys,
            pairs: BinaryHeap::new(alloc),
        })
    }

    fn put(&mut self, node: u32, key: u64) -> Result<(), AllocError> {
        self.pairs.push(Reverse((key, node)))?;
        self.keys[node as usize] = Some(key);
        Ok(())
    }

    fn lower(&mut self, node: u32, key: u64) -> Result<(), AllocError> {
        self.pairs.push(Reverse((key, node)))?;
        self.keys[node as usize] = Some(key);
        Ok(())
    }

    fn take_least(&mut self) -> Option<(u32, u64)> {
        while let Some(Reverse((key, node))) = self.pairs.pop() {
            if is_present(&self.keys, node, key) {
                self.keys[node as usize] = None;
                return Some((node, key));
            }
        }
        None
    }

    fn is_empty(&self) -> bool {
        for key in &self.keys {
            if key.is_some() {
                return false;
            }
        }
        true
    }

    fn clear(&mut self) {
        forget_keys(&mut self.keys, self.pairs.as_slice());
        self.pairs.clear();
    }

    fn spare(&self) -> u64 {
        (self.pairs.capacity() - self.pairs.len()) as u64
    }
}

/// Whether `key` is the present key of `node`.
fn is_present(keys: &[Option<u64>], node: u32, key: u64) -> bool
    ensures { IsTrue result ↔ (slice_index_or keys.now node None ≡ Some key) }
{
    keys.get(node as usize)
        .is_some_and(|held| *held == Some(key))
}

/// Clears the key of each node that is in a pair.
fn forget_keys(keys: &mut Vec<Option<u64>>, pairs: &[Reverse<(u64, u32)>])
    ensures gone { (v key : ℕ) → list_any (is_pair v key) pairs.now ≡ true
        → slice_index_or keys.new.items v None ≡ None }
    ensures kept { (v key : ℕ) → slice_index_or keys.new.items v None ≡ Some key
        → slice_index_or keys.old.items v None ≡ Some key }
    ensures many { vec_len keys.new ≡ vec_len keys.old }
{
    for Reverse((_, node)) in pairs {
        if (*node as usize) < keys.len() {
            keys[*node as usize] = None;
        }
    }
}
