// The cells that a plan gives all rows.

ghost use Rattle.std.specs.Prelude.{◌≡◌, ◌<◌, IfOk, length, option_map};
ghost use Rattle.hsp_dispatch.specs.Shares.{cells_at, first_of, left_at};
ghost use Rattle.hsp_dispatch.specs.Standings.{left_among, sole_in};
ghost use Rattle.hsp_dispatch.specs.declared.share.Cell.{Cell};

use crate::row_cells::RowCells;
use hsp_log::Front;
use std::alloc::{AllocError, Global};
use std::marker::Model;

/// The cells that a plan gives each row. For each row with only one cell, the cell's server stands in a list of its
/// own, with two octets for each row, so that most queries read no cell.
#[derive(Drop)]
pub(crate) struct PlanCells {
    rows: Vec<RowCells>,
    soles: Vec<u16>,
}

impl Model for PlanCells {
    ghost use Rattle.std.specs.Prelude.{List};
    ghost use Rattle.hsp_dispatch.specs.Standings.{AreSoles};
    ghost use Rattle.hsp_dispatch.specs.declared.share.Cell.{Cell};

    ghost Value = { List (List Cell) };

    ghost view = { λ plan. plan.rows.items };

    ghost invariant = { λ plan. AreSoles plan.soles.items plan.rows.items };
}

// The server that a number names.
fn named(sole: u16) -> Option<u32>
    ensures { result ≡ sole_in sole }
{
    if sole == u16::MAX {
        None
    } else {
        Some(u32::from(sole))
    }
}

impl PlanCells {
    /// The cells of rows.
    pub(crate) fn of(alloc: Global, rows: Vec<RowCells>) -> Result<PlanCells, AllocError>
        ensures { IfOk result (λ plan. plan ≡ rows.items) }
    {
        let mut soles = Vec::with_capacity(alloc, rows.len())?;
        for row in &rows {
            soles.push(row.sole())?;
        }
        Ok(PlanCells { rows, soles })
    }

    /// The number of the server to which a front's next query for a row goes, or None where the front has nothing left
    /// of the row. The front has `left` queries left of it, and the query goes to the first site where it has something
    /// left.
    pub(crate) fn server(&self, row: u32, left: u32, front: Front) -> Option<u32>
        requires some { 0 < front.fronts }
        requires row { row < length self.now }
        ensures { result ≡ option_map (λ (cell : Cell). cell.server)
            (first_of
            (left_among front.fronts front.number left (cells_at self.now row))) }
    {
        if left == 0 {
            return None;
        }
        if let Some(server) = named(self.soles[row as usize]) {
            return Some(server);
        }
        self.rows[row as usize].server(left, front)
    }

    /// What a front has left of a row at a site, where it has `left` queries left of the row in all.
    pub(crate) fn left(&self, row: u32, left: u32, site: u32, front: Front) -> u64
        requires some { 0 < front.fronts }
        requires row { row < length self.now }
        ensures { result ≡
            left_at
            (left_among front.fronts front.number left (cells_at self.now row)) site }
    {
        self.rows[row as usize].left(left, site, front)
    }

    /// How many rows there are.
    pub(crate) fn len(&self) -> usize
        ensures { result ≡ length self.now }
    {
        self.rows.len()
    }
}
