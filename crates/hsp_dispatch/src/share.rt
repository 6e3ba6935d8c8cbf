// What a plan has left for a row.

ghost use Rattle.std.specs.Prelude.{◌≡◌, ◌++◌, [], IfOk, OnOk};
ghost use Rattle.hsp_dispatch.specs.Shares.{AreCells, first_of, left_at, with_first, without_first};

use std::alloc::{AllocError, Global};
use std::marker::Model;

/// What is left of a row's number at a site, and the server there that is responsible for the row's handle.
#[derive(Clone, Copy)]
pub(crate) struct Cell {
    pub(crate) site: u32,
    pub(crate) server: u32,
    pub(crate) left: u64,
}

/// The cells of a row behind its first one, and the place of the next of them.
#[derive(Drop)]
pub(crate) struct Later {
    cells: Vec<Cell>,
    next: usize,
}

/// What is left for a row: cells in ascending order of their sites, each with something left. The first cell stands in
/// place and the others behind a box, so that most queries touch little memory. It is spent where nothing is left.
#[derive(Drop)]
pub(crate) struct RowShare {
    first: Cell,
    later: Box<Later>,
}

impl Model for RowShare {
    ghost use Rattle.std.specs.Prelude.{List, drop, length, [], ◌≡◌, ◌≤◌};
    ghost use Rattle.hsp_dispatch.specs.declared.share.Cell.{Cell};
    ghost use Rattle.hsp_dispatch.specs.Shares.{AreCells, with_first};

    ghost Value = { List Cell };

    ghost view = { λ s.
        with_first s.first (drop s.later.value.next s.later.value.cells.items) };

    ghost invariant = { λ s. (s.later.value.next ≤ length s.later.value.cells.items)
        × AreCells (with_first s.first (drop s.later.value.next s.later.value.cells.items))
        × (s.first.left ≡ 0 → drop s.later.value.next s.later.value.cells.items ≡ []) };
}

impl RowShare {
    /// A share of nothing.
    pub(crate) fn new(alloc: Global) -> Result<RowShare, AllocError>
        ensures { IfOk result (λ share. share ≡ []) }
    {
        let spent = Cell {
            site: 0,
            server: 0,
            left: 0,
        };
        let none = Later {
            cells: Vec::new(alloc),
            next: 0,
        };
        let later = Box::new(alloc, none)?;
        Ok(RowShare {
            first: spent,
            later,
        })
    }

    /// Adds a cell, if something is left in it. Its site comes after all others.
    pub(crate) fn push(&mut self, cell: Cell) -> Result<(), AllocError>
        requires { AreCells (self.old ++ with_first cell []) }
        ensures { OnOk result (self.new ≡ self.old ++ with_first cell []) }
    {
        if self.first.left == 0 {
            self.first = cell;
        } else if cell.left > 0 {
            self.later.cells.reserve_exact(1)?;
            self.later.cells.push(cell)?;
        }
        Ok(())
    }

    /// Takes one query from what is left, at the first site that has something left. Returns None where nothing is
    /// left.
    pub(crate) fn take(&mut self) -> Option<Cell>
        ensures taken { result ≡ first_of self.old }
        ensures rest { self.new ≡ without_first self.old }
    {
        let cell = self.first;
        if cell.left == 0 {
            return None;
        }
        if cell.left > 1 || self.later.next == self.later.cells.len() {
            self.first.left -= 1;
        } else {
            self.first = self.later.cells[self.later.next];
            self.later.next += 1;
        }
        Some(cell)
    }

    /// The cells in which something is left.
    pub(crate) fn cells(&self, alloc: Global) -> Result<Vec<Cell>, AllocError>
        ensures { IfOk result (λ cells. cells.items ≡ self.now) }
    {
        let mut cells = Vec::new(alloc);
        if self.first.left > 0 {
            cells.push(self.first)?;
            cells.extend_from_slice(&self.later.cells[self.later.next..])?;
        }
        Ok(cells)
    }

    /// What is left at a site, or 0 where nothing is.
    pub(crate) fn left(&self, site: u32) -> u64
        ensures { result ≡ left_at self.now site }
    {
        if self.first.site == site {
            return self.first.left;
        }
        for cell in &self.later.cells[self.later.next..] {
            if cell.site == site {
                return cell.left;
            }
        }
        0
    }
}
