// The share of a front in what a plan gives a row.

ghost use Rattle.std.specs.Prelude.{◌≡◌, ◌<◌, ◌≤◌, length};
ghost use Rattle.hsp_text.specs.declared.limits.TheConstants.{MOST_SITES};
ghost use Rattle.hsp_dispatch.specs.Shares.{left_at};
ghost use Rattle.hsp_dispatch.specs.Standings.{cells_left, left_among, shares_in, shares_sum};

use crate::share::Cell;
use hsp_log::{Front, share_of_front};

/// The number of the cell of a row at which a front stands, and what the front has left there. If that is nothing, it
/// has nothing left of the row.
#[derive(Clone, Copy)]
pub(crate) struct Standing {
    pub(crate) cell: u32,
    pub(crate) left: u32,
}

/// The shares of a front in cells together.
pub(crate) fn sum_in(cells: &[Cell], front: Front) -> u32
    requires some { 0 < front.fronts }
    requires fits { shares_sum front.fronts front.number cells.now ≤ 4294967295 }
    ensures { result ≡ shares_sum front.fronts front.number cells.now }
{
    let mut sum = 0;
    for cell in cells {
        sum += share_of_front(cell.left, front);
    }
    sum as u32
}

/// Where a front stands that has `left` queries left: at the last cell whose share, with the shares behind it, comes to
/// that many, and otherwise at the first.
pub(crate) fn stand_with(cells: &[Cell], left: u32, front: Front) -> Standing
    requires some { 0 < front.fronts }
    requires few { length cells.now ≤ MOST_SITES }
    ensures { cells_left front.fronts front.number cells.now result ≡
        left_among front.fronts front.number left cells.now }
{
    let mut here = left;
    let mut number = cells.len().saturating_sub(1);
    'cells: while number > 0 {
        let own = share_of_front(cells[number].left, front);
        if u64::from(here) <= own {
            let cell = number as u32;
            return Standing { cell, left: here };
        }
        here -= own as u32;
        number -= 1;
    }
    Standing {
        cell: 0,
        left: here,
    }
}

/// The share of a front in the cell of a site, or 0 where no cell is of the site.
pub(crate) fn share_at(cells: &[Cell], site: u32, front: Front) -> u64
    requires { 0 < front.fronts }
    ensures { result ≡ left_at (shares_in front.fronts front.number cells.now) site }
{
    for cell in cells {
        let left = share_of_front(cell.left, front);
        if cell.site == site && left > 0 {
            return left;
        }
    }
    0
}
