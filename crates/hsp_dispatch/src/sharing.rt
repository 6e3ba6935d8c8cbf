// What the uses of a plan give each row of its instance.

ghost use Rattle.std.specs.Prelude.{◌≡◌, ◌<◌, [], length, replicate, slice_get, IfOk};
ghost use Rattle.hsp_dispatch.specs.Dispatch.{arc_to};
ghost use Rattle.std.specs.List.{AllByRecursion};
ghost use Rattle.hsp_check.specs.Uses.{table};
ghost use Rattle.hsp_dispatch.specs.Dispatch.{IsSame};
ghost use Rattle.hsp_dispatch.specs.Shares.{AreUsesOf, IsHeld, cell_of, holding, left_of, number_of};
ghost use Rattle.hsp_dispatch.specs.Standings.{AreBounded};

use crate::share::{Cell, RowShare};
use hsp_cert::UseLine;
use hsp_instance::Instance;
use std::alloc::{AllocError, Global};

// The number of the server at which the row's arc to a site ends, or 0 where the row has no such arc.
fn server_at(instance: &Instance, row: u32, site: u32) -> u32
    requires { row < length instance.now.rows }
    ensures { result ≡ number_of (arc_to site (slice_get instance.now.arcs row)) }
{
    for arc in instance.arcs(row) {
        if arc.site == site {
            return arc.server;
        }
    }
    0
}

// The cell that a use gives its row.
fn cell_for(instance: &Instance, one: UseLine) -> Cell
    requires { one.row < length instance.now.rows }
    ensures { result ≡ cell_of instance.now one }
{
    Cell {
        site: one.site,
        server: server_at(instance, one.row, one.site),
        left: one.count,
    }
}

// `count` shares of nothing.
fn empty_shares(alloc: Global, count: u32) -> Result<Vec<RowShare>, AllocError>
    ensures { IfOk result (λ shares. shares.items ≡ replicate count []) }
{
    let mut shares = Vec::new(alloc);
    for _row in 0..count {
        shares.push(RowShare::new(alloc)?)?;
    }
    Ok(shares)
}

/// For each row, what the uses give it.
pub(crate) fn share_out(
    alloc: Global,
    instance: &Instance,
    uses: &[UseLine],
) -> Result<Vec<RowShare>, AllocError>
    requires { AreUsesOf instance.now uses.now }
    ensures held { IfOk result (λ shares. IsHeld (holding instance.now shares.items)) }
    ensures table { IfOk result
        (λ shares. IsSame (left_of (holding instance.now shares.items)) (table uses.now)) }
    ensures bounded { IfOk result (λ shares. AllByRecursion AreBounded shares.items) }
{
    let mut shares = empty_shares(alloc, instance.rows())?;
    for one in uses {
        let cell = cell_for(instance, *one);
        shares[one.row as usize].push(cell)?;
    }
    Ok(shares)
}
