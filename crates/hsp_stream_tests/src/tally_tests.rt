// Rows that were seen. Where memory ran out once, it is there again.

use crate::same::is_same;
use hsp_price_check::SeenRows;
use std::alloc::Global;

// Puts in a number, and once more where memory ran out. Whether it is in then.
fn has_put(seen: &mut SeenRows, alloc: Global, region: &[u8], handle: &[u8], number: u32) -> bool {
    seen.remember(alloc, region, handle, number).is_ok()
        || seen.remember(alloc, region, handle, number).is_ok()
}

#[test]
fn rows_that_were_seen_are_found(rt: HostRuntime) {
    let mut seen = SeenRows::new();
    is_same(&rt, seen.find(b"r1", b"10/1"), None);
    is_same(&rt, has_put(&mut seen, rt.alloc(), b"r1", b"10/1", 7), true);
    is_same(&rt, has_put(&mut seen, rt.alloc(), b"r11", b"0/1", 8), true);
    is_same(&rt, seen.find(b"r1", b"10/1"), Some(7));
    is_same(&rt, seen.find(b"r11", b"0/1"), Some(8));
    is_same(&rt, seen.find(b"r1", b"10/2"), None);
    is_same(&rt, has_put(&mut seen, rt.alloc(), b"r1", b"10/1", 9), true);
    is_same(&rt, seen.find(b"r1", b"10/1"), Some(7));
    is_same(&rt, seen.len(), 2);
}

#[test]
fn a_row_of_more_than_256_octets_is_not_kept(rt: HostRuntime) {
    let mut seen = SeenRows::new();
    let long = [b'x'; 255];
    is_same(&rt, has_put(&mut seen, rt.alloc(), b"r", &long, 1), true);
    is_same(&rt, has_put(&mut seen, rt.alloc(), b"r1", &long, 2), true);
    is_same(&rt, seen.find(b"r", &long), Some(1));
    is_same(&rt, seen.find(b"r1", &long), None);
}
