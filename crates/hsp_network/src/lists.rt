// Reads and writes at places that may not be there.
//
// The solver has to be safe whatever its lists hold, and is right only where they hold a spanning tree. So it takes
// no place for granted: a read names the value that stands for a missing item, and a write beside the list is left
// out.

/// The number that no node and no arc has.
pub const ABSENT: u32 = u32::MAX;

/// The item at a place, or the fallback where there is none.
#[inline(always)]
pub fn get_or<T: Copy>(list: &[T], place: usize, fallback: T) -> T {
    match list.get(place) {
        Some(item) => *item,
        None => fallback,
    }
}

/// Puts an item at a place, where there is one.
#[inline(always)]
pub fn set<T: Drop>(list: &mut [T], place: usize, item: T) {
    if place < list.len() {
        list[place] = item;
    }
}

/// Adds an amount to a number, modulo 2^64.
#[inline(always)]
pub fn increase(list: &mut [u64], place: usize, amount: u64) {
    if place < list.len() {
        list[place] = list[place].wrapping_add(amount);
    }
}

/// Sets a flag, and returns whether it was not set before.
#[inline(always)]
pub fn mark(flags: &mut [bool], place: usize) -> bool {
    let marked = get_or(flags, place, true);
    set(flags, place, true);
    !marked
}

/// The items from `start` up to `end`, or none where these are not places of the list.
#[inline(always)]
pub fn between<T>(list: &[T], start: usize, end: usize) -> &[T] {
    if start <= end && end <= list.len() {
        &list[start..end]
    } else {
        &[]
    }
}

/// A place as the number that lists keep of it, or `ABSENT` where that number has too few bits.
#[inline(always)]
pub fn number_of(place: usize) -> u32 {
    if place < 4_294_967_295 {
        place as u32
    } else {
        ABSENT
    }
}

/// The sum of the numbers, or the greatest number where the sum is above it.
pub fn saturating_sum(numbers: &[u64]) -> u64 {
    let mut sum = 0u64;
    for number in numbers {
        sum = sum.saturating_add(*number);
    }
    sum
}
