// A frontier that is scanned for its least key.

ghost use Rattle.std.specs.Prelude.{◌≡◌, ℕ, ◌<◌, ◌≤◌, ⊤, Option, None, slice_index_or, vec_len};

use crate::frontier::Frontier;
use std::alloc::{AllocError, Global};

/// A frontier that keeps a key for each node and looks at all of them for the least.
#[derive(Drop)]
pub struct ScanFrontier {
    keys: Vec<Option<u64>>,
    ghost few: { vec_len keys < 4294967296 },
}

impl Frontier for ScanFrontier {
    ghost held = { λ f v. slice_index_or f.keys.items v None };

    ghost node_count = { λ f. vec_len f.keys };

    ghost sure = { λ _. 18446744073709551615 };

    ghost may_have = { λ _. ⊤ };

    fn with_nodes(alloc: Global, nodes: u32) -> Result<ScanFrontier, AllocError> {
        let keys = vec![in alloc; None; nodes as usize]?;
        Ok(ScanFrontier { keys })
    }

    fn put(&mut self, node: u32, key: u64) -> Result<(), AllocError> {
        self.keys[node as usize] = Some(key);
        Ok(())
    }

    fn lower(&mut self, node: u32, key: u64) -> Result<(), AllocError> {
        self.keys[node as usize] = Some(key);
        Ok(())
    }

    fn take_least(&mut self) -> Option<(u32, u64)> {
        let mut least: Option<(u32, u64)> = None;
        for node in 0..self.keys.len() as u32 {
            if let Some(key) = self.keys[node as usize] {
                if least.is_none_or(|(_, best)| key < best) {
                    least = Some((node, key));
                }
            }
        }
        if let Some((node, _)) = least {
            self.keys[node as usize] = None;
        }
        least
    }

    fn is_empty(&self) -> bool {
        for key in &self.keys {
            if key.is_some() {
                return false;
            }
        }
        true
    }

    fn clear(&mut self) {
        self.keys.fill(None);
    }

    fn spare(&self) -> u64 {
        u64::MAX
    }
}
