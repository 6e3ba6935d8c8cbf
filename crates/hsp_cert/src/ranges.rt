// The orders and ranges of a certificate's numbers.

ghost use Rattle.std.specs.Prelude.{◌≡◌, nat_lt};
ghost use Rattle.std.specs.List.{list_all};
ghost use Rattle.hsp_cert.specs.Certificate.{is_use, is_price, is_row, is_before, goes_on_from, ascends};
ghost use Rattle.hsp_cert.specs.Certificate.{are_prices_within};
ghost use Rattle.hsp_cert.specs.Drafts.{is_next};

use crate::use_line::UseLine;
use hsp_text::limits::{GREATEST_COUNT, GREATEST_PRICE, MOST_DEMAND_ROWS, MOST_SITES};

// The number of the last row and of the last site that there may be.
pub(crate) const LAST_ROW: u32 = MOST_DEMAND_ROWS as u32 - 1;

pub(crate) const LAST_SITE: u32 = MOST_SITES as u32 - 1;

/// Whether a use is within the ranges of rows, sites and counts.
pub(crate) fn is_use(one: UseLine) -> bool
    ensures { result ≡ is_use one }
{
    one.row <= LAST_ROW && one.site <= LAST_SITE && 1 <= one.count && one.count <= GREATEST_COUNT
}

/// Whether a price is within its range: at most 10^12.
pub fn is_price(price: u64) -> bool
    ensures { result ≡ is_price price }
{
    price <= GREATEST_PRICE
}

/// Whether a row is within its range.
pub(crate) fn is_row(row: u32) -> bool
    ensures { result ≡ is_row row }
{
    row <= LAST_ROW
}

// Whether the next use stands after the last, if there is one: in order of the rows, and of the sites within a row.
pub(crate) fn is_after(last: Option<UseLine>, next: UseLine) -> bool
    ensures { result ≡ goes_on_from is_before last next }
{
    match last {
        None => true,
        Some(last) => last.row < next.row || (last.row == next.row && last.site < next.site),
    }
}

/// Whether a number may follow the last one of a list that ascends: it is greater, or there is none.
pub fn is_number_after(last: Option<u32>, next: u32) -> bool
    ensures { result ≡ goes_on_from nat_lt last next }
{
    match last {
        None => true,
        Some(last) => last < next,
    }
}

/// Whether each use is within its ranges.
pub(crate) fn are_uses(uses: &[UseLine]) -> bool
    ensures { result ≡ list_all is_use uses.now }
{
    for one in uses {
        if !is_use(*one) {
            return false;
        }
    }
    true
}

/// Whether uses ascend by row, then by site.
pub(crate) fn are_ascending(uses: &[UseLine]) -> bool
    ensures { result ≡ ascends is_before uses.now }
{
    let mut last = None;
    for next in uses {
        if !is_after(last, *next) {
            return false;
        }
        last = Some(*next);
    }
    true
}

/// Whether each row is within its range.
pub(crate) fn are_rows(rows: &[u32]) -> bool
    ensures { result ≡ list_all is_row rows.now }
{
    for row in rows {
        if !is_row(*row) {
            return false;
        }
    }
    true
}

/// Whether each number is greater than the one before it.
pub fn are_numbers_ascending(numbers: &[u32]) -> bool
    ensures { result ≡ ascends nat_lt numbers.now }
{
    let mut last = None;
    for next in numbers {
        if !is_number_after(last, *next) {
            return false;
        }
        last = Some(*next);
    }
    true
}

/// Whether there are at most so many prices, and each is within its range.
pub fn are_prices(prices: &[u64], most: usize) -> bool
    ensures { result ≡ are_prices_within most prices.now }
{
    if prices.len() > most {
        return false;
    }
    for price in prices {
        if !is_price(*price) {
            return false;
        }
    }
    true
}

/// Whether a price may stand behind these with its number: it is within its range, it has the next number, counted
/// from 0, and there are then at most so many.
pub fn is_next(most: usize, prices: &[u64], number: u64, price: u64) -> bool
    ensures { result ≡ is_next most prices.now number price }
{
    number == prices.len() as u64 && number < most as u64 && is_price(price)
}
