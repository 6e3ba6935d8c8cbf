ghost use Rattle.std.specs.Prelude.{◌<◌};

use crate::same::is_same;
use hsp_pair_map::PairMap;
use std::alloc::{AllocError, Global};

// Three pairs whose octets are alike where the names are written one after the other, over that many buckets.
fn map_over(alloc: Global, buckets: u32) -> Result<PairMap, AllocError>
    requires { 0 < buckets }
{
    let mut map = PairMap::new(alloc, buckets)?;
    map.push(b"r1", b"20.500.12345/object-1")?;
    map.push(b"r120.500.12345/object-1", b"")?;
    map.push(b"", b"r120.500.12345/object-1")?;
    Ok(map)
}

#[test]
fn pairs_are_found_by_both_names(rt: HostRuntime) {
    for buckets in [1, 2, 13] {
        let map = match map_over(rt.alloc(), buckets) {
            Err(AllocError) => map_over(rt.alloc(), buckets).expect(&rt, "there is memory"),
            Ok(map) => map,
        };
        is_same(&rt, map.len(), 3);
        let found = [
            map.find(b"r1", b"20.500.12345/object-1"),
            map.find(b"r120.500.12345/object-1", b""),
            map.find(b"", b"r120.500.12345/object-1"),
            map.find(b"r1", b"20.500.12345/object-2"),
            map.find(b"20.500.12345/object-1", b"r1"),
            map.find(b"", b""),
        ];
        is_same(&rt, found, [Some(0), Some(1), Some(2), None, None, None]);
    }
}
