// The amounts of classes, in cells: one for each server of each class, class by class.

ghost use Rattle.std.specs.Prelude.{◌≡◌, ◌++◌, ◌≤◌, ◌<◌, ℕ, All, IfOk, OnOk, length, min, slice_index, slice_set};
ghost use Rattle.std.specs.List.{flat_map};
ghost use Rattle.hsp_prices.specs.Sums.{sends};
ghost use Rattle.hsp_price_dispatch.specs.Choosing.{first_cell};
ghost use Rattle.hsp_price_dispatch.specs.Holding.{cell_at, one_given};
ghost use Rattle.hsp_price_dispatch.specs.Starting.{cells_of};

use hsp_log::{Front, share_of_front};
use hsp_price_text::Class;
use std::alloc::{AllocError, Global};

/// What is left of the amount of a class at one of its servers.
#[derive(Clone, Copy)]
pub(crate) struct Cell {
    /// The number of the server.
    pub(crate) server: u32,
    /// The front's share of the amount, in queries.
    pub(crate) share: u64,
    /// What is left of that.
    pub(crate) left: u64,
}

// Appends the cells of a class.
fn push_cells(cells: &mut Vec<Cell>, class: &Class, front: Front) -> Result<(), AllocError>
    requires { 0 < front.fronts }
    ensures { OnOk result (cells.new.items
        ≡ cells.old.items ++ cells_of front.fronts front.number class.now) }
{
    for (server, amount) in class.servers.iter().zip(&class.amounts) {
        let own = share_of_front(*amount, front);
        cells.push(Cell {
            server: *server,
            share: own,
            left: own,
        })?;
    }
    Ok(())
}

/// The cells of classes by a front's shares.
pub(crate) fn cells_of_classes(
    alloc: Global,
    classes: &[Class],
    front: Front,
) -> Result<Vec<Cell>, AllocError>
    requires { 0 < front.fronts }
    ensures { IfOk result (λ cells. cells.items
        ≡ flat_map (cells_of front.fronts front.number) classes.now) }
{
    let mut cells = Vec::new(alloc);
    for class in classes {
        push_cells(&mut cells, class, front)?;
    }
    Ok(cells)
}

/// Takes one query from what is left in a cell, in which something is left.
pub(crate) fn give_one(cells: &mut [Cell], number: usize)
    requires inside { number < length cells.old }
    requires left { 0 < (cell_at cells.old number).left }
    ensures { cells.new ≡ slice_set cells.old number (one_given (cell_at cells.old number)) }
{
    let cell = cells[number];
    cells[number] = Cell {
        server: cell.server,
        share: cell.share,
        left: cell.left - 1,
    };
}

// How many cells a class has.
fn cells_many(class: &Class) -> usize
    ensures { result ≡ min (length class.now.servers) (length class.now.amounts) }
{
    class.servers.len().min(class.amounts.len())
}

/// For each class the number of its first cell.
pub(crate) fn first_cells(alloc: Global, classes: &[Class]) -> Result<Vec<usize>, AllocError>
    requires few { length classes.now ≤ 1048576 }
    requires fit { All (λ class. length (sends class) ≤ 1024) classes.now }
    ensures many { IfOk result (λ firsts. length firsts.items ≡ length classes.now) }
    ensures each { IfOk result (λ firsts. (k : ℕ) → k < length classes.now
        → slice_index firsts.items k ≡ first_cell classes.now k) }
{
    let mut firsts = Vec::with_capacity(alloc, classes.len())?;
    let mut next: usize = 0;
    for class in classes {
        firsts.push(next)?;
        next += cells_many(class);
    }
    Ok(firsts)
}
