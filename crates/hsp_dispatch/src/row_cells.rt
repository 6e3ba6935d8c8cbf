// The cells that a plan gives a row, of which each front has a share.

ghost use Rattle.std.specs.Prelude.{◌≡◌, ◌<◌, ◌≤◌, IfSome, length, option_map};
ghost use Rattle.hsp_text.specs.declared.limits.TheConstants.{MOST_SITES};
ghost use Rattle.hsp_dispatch.specs.Shares.{first_of, left_at};
ghost use Rattle.hsp_dispatch.specs.Standings.{AreBounded, IsSole, left_among, shares_sum, sole_in};
ghost use Rattle.hsp_dispatch.specs.declared.share.Cell.{Cell};

use crate::front_share::{share_at, stand_with, sum_in};
use crate::share::Cell;
use hsp_log::Front;
use std::marker::Model;

/// The cells that a plan gives a row.
#[derive(Drop)]
pub(crate) struct RowCells {
    cells: Vec<Cell>,
}

impl Model for RowCells {
    ghost use Rattle.std.specs.Prelude.{◌≤◌, List, length};
    ghost use Rattle.hsp_text.specs.declared.limits.TheConstants.{MOST_SITES};
    ghost use Rattle.hsp_dispatch.specs.Standings.{AreBounded};
    ghost use Rattle.hsp_dispatch.specs.declared.share.Cell.{Cell};

    ghost Value = { List Cell };

    ghost view = { λ r. r.cells.items };

    ghost invariant = { λ r. (length r.cells.items ≤ MOST_SITES) × AreBounded r.cells.items };
}

impl RowCells {
    /// The cells of a row.
    pub(crate) fn new(cells: Vec<Cell>) -> RowCells
        requires few { length cells.items ≤ MOST_SITES }
        requires bounded { AreBounded cells.items }
        ensures { result ≡ cells.items }
    {
        RowCells { cells }
    }

    /// The number of the server, if there is only one cell and the number is below the greatest of two octets, and
    /// otherwise that greatest.
    pub(crate) fn sole(&self) -> u16
        ensures { IfSome (sole_in result) (λ server. IsSole server self.now) }
    {
        if self.cells.len() == 1 && self.cells[0].server < 65_535 {
            self.cells[0].server as u16
        } else {
            u16::MAX
        }
    }

    /// The shares of a front in all cells together.
    pub(crate) fn all(&self, front: Front) -> u32
        requires { 0 < front.fronts }
        ensures { result ≡ shares_sum front.fronts front.number self.now }
    {
        sum_in(&self.cells, front)
    }

    /// The number of the server to which a front's next query goes, or None where the front has nothing left of the
    /// row. The front has `left` queries left of it, and the query goes to the first site where it has something left.
    pub(crate) fn server(&self, left: u32, front: Front) -> Option<u32>
        requires { 0 < front.fronts }
        ensures { result ≡ option_map (λ (cell : Cell). cell.server)
            (first_of (left_among front.fronts front.number left self.now)) }
    {
        let standing = stand_with(&self.cells, left, front);
        if standing.left == 0 {
            return None;
        }
        let cell = self.cells.get(standing.cell as usize)?;
        Some(cell.server)
    }

    /// What a front has left at a site, where it has `left` queries left of the row.
    pub(crate) fn left(&self, left: u32, site: u32, front: Front) -> u64
        requires { 0 < front.fronts }
        ensures { result ≡ left_at (left_among front.fronts front.number left self.now) site }
    {
        let standing = stand_with(&self.cells, left, front);
        if standing.left == 0 {
            return 0;
        }
        let at = standing.cell as usize;
        let Some(cell) = self.cells.get(at) else {
            return 0;
        };
        if cell.site == site {
            return u64::from(standing.left);
        }
        share_at(&self.cells[at + 1..], site, front)
    }
}
