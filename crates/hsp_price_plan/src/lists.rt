// Reads and writes at places that may not be there. The guess has to be safe whatever its lists hold.

/// The number that no server has.
pub(crate) const ABSENT: u16 = u16::MAX;

/// The item at a place, or the fallback where there is none.
#[inline(always)]
pub(crate) fn get_or<T: Copy>(list: &[T], place: usize, fallback: T) -> T {
    match list.get(place) {
        Some(item) => *item,
        None => fallback,
    }
}

/// Puts an item at a place, where there is one.
#[inline(always)]
pub(crate) fn set<T: Drop>(list: &mut [T], place: usize, item: T) {
    if place < list.len() {
        list[place] = item;
    }
}

/// Adds an amount to a number, up to the greatest number.
#[inline(always)]
pub(crate) fn increase(list: &mut [u64], place: usize, amount: u64) {
    if place < list.len() {
        list[place] = list[place].saturating_add(amount);
    }
}

/// Takes an amount from a number, down to 0.
#[inline(always)]
pub(crate) fn lower(list: &mut [u64], place: usize, amount: u64) {
    if place < list.len() {
        list[place] = list[place].saturating_sub(amount);
    }
}

/// The items from `start` up to `end`, or none where these are not places of the list.
#[inline(always)]
pub(crate) fn between<T>(list: &[T], start: usize, end: usize) -> &[T] {
    if start <= end && end <= list.len() {
        &list[start..end]
    } else {
        &[]
    }
}

/// A place as the number that lists keep of it, or the greatest number where that has too few bits.
#[inline(always)]
pub(crate) fn number_of(place: usize) -> u32 {
    if place < 4_294_967_295 {
        place as u32
    } else {
        u32::MAX
    }
}

/// The sum of the numbers, or the greatest number where the sum is above it.
pub(crate) fn saturating_sum(numbers: &[u64]) -> u64 {
    let mut sum = 0u64;
    for number in numbers {
        sum = sum.saturating_add(*number);
    }
    sum
}

/// A number whose bits each depend on all bits of the given one.
#[inline(always)]
pub(crate) fn mixed(number: u64) -> u64 {
    let first = (number ^ (number >> 30)).wrapping_mul(0xbf58_476d_1ce4_e5b9);
    let second = (first ^ (first >> 27)).wrapping_mul(0x94d0_49bb_1331_11eb);
    second ^ (second >> 31)
}
