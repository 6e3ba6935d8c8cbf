// The report of a shortage.

ghost use Rattle.std.specs.Prelude.{◌≡◌, ◌++◌, ◌<◌, ◌≤◌, All, IfOk, OnOk, length};
ghost use Rattle.hsp_instance.specs.Instance.{IsInstance};
ghost use Rattle.hsp_check.specs.Instance.{network_of};
ghost use Rattle.hsp_check.specs.Valid.{IsValidSet};
ghost use Rattle.hsp_report.specs.Conditions.{IsShortageFor};
ghost use Rattle.hsp_report.specs.ShortageReport.{IsShortageReport, missing_line, reached_line, reached_lines};
ghost use Rattle.hsp_report.specs.ShortageReport.{row_line, row_lines, shortage_report};

use crate::columns::{aligned, push_columns, push_difference};
use hsp_cert::{Certificate, ShortRef};
use hsp_check::reached_servers;
use hsp_instance::Instance;
use std::alloc::{AllocError, Global};

const ROWS_HEADER: &[u8] = b" row   count region\n";

const SERVERS_HEADER: &[u8] = b"place     server   capacity site\n";

// Appends the line of a row.
fn push_row(out: &mut Vec<u8>, instance: &Instance, row: u32) -> Result<(), AllocError>
    requires { row < length instance.now.rows }
    ensures { OnOk result (out.new.items ≡ out.old.items ++ row_line instance.now row) }
{
    let (region, _, count) = instance.row(row);
    push_columns(
        out,
        &[aligned(4, u128::from(row)), aligned(7, u128::from(count))],
        region,
    )
}

// Appends the lines of rows.
fn push_rows(out: &mut Vec<u8>, instance: &Instance, rows: &[u32]) -> Result<(), AllocError>
    requires { All (λ row. row < length instance.now.rows) rows.now }
    ensures { OnOk result (out.new.items ≡ out.old.items ++ row_lines instance.now rows.now) }
{
    for row in rows {
        push_row(out, instance, *row)?;
    }
    Ok(())
}

// Appends the line of a server.
fn push_server(out: &mut Vec<u8>, instance: &Instance, server: u32) -> Result<(), AllocError>
    requires server { server < length instance.now.servers }
    requires within { IsInstance instance.now }
    ensures { OnOk result (out.new.items ≡ out.old.items ++ reached_line instance.now server) }
{
    let (site, place, id, capacity) = instance.server(server);
    push_columns(
        out,
        &[
            aligned(5, u128::from(place)),
            aligned(10, u128::from(id)),
            aligned(10, u128::from(capacity)),
        ],
        instance.sites().name(site),
    )
}

// Appends the lines of servers.
fn push_servers(out: &mut Vec<u8>, instance: &Instance, servers: &[u32]) -> Result<(), AllocError>
    requires servers { All (λ server. server < length instance.now.servers) servers.now }
    requires within { IsInstance instance.now }
    ensures { OnOk result (out.new.items
        ≡ out.old.items ++ reached_lines instance.now servers.now) }
{
    for server in servers {
        push_server(out, instance, *server)?;
    }
    Ok(())
}

// Appends the line of what rows ask for, and what is missing of it.
fn push_short(out: &mut Vec<u8>, demand: u64, capacity: u64) -> Result<(), AllocError>
    requires { capacity ≤ demand }
    ensures { OnOk result (out.new.items ≡ out.old.items ++ missing_line demand capacity) }
{
    push_difference(
        out,
        b"short",
        u128::from(demand),
        u128::from(capacity),
        u128::from(demand - capacity),
    )
}

// The report of a short set.
fn shortage_text(
    alloc: Global,
    instance: &Instance,
    set: &ShortRef<'_>,
) -> Result<Vec<u8>, AllocError>
    requires { IsValidSet (network_of instance.now) set.now }
    ensures { IfOk result (λ text. text.items ≡ shortage_report instance.now set.now) }
{
    // The instance is within its limits.
    let _servers = instance.servers();
    let servers = reached_servers(alloc, instance, set)?;
    let mut text = Vec::new(alloc);
    push_short(&mut text, set.demand(), set.capacity())?;
    text.extend_from_slice(ROWS_HEADER)?;
    push_rows(&mut text, instance, set.rows())?;
    text.extend_from_slice(SERVERS_HEADER)?;
    push_servers(&mut text, instance, &servers)?;
    Ok(text)
}

/// The rows of a short set, and the servers that they reach. The set is one to which [`check`](hsp_check::check) says
/// Yes.
///
/// The report begins with `short D - K = M`: D is what the rows ask for, K what all that they can reach can take, and M
/// what is missing. Then it has a header and a line for each row, and a header and a line for each server that the rows
/// may use, once and in ascending number.
///
/// A row's line has its number in 4 columns and its count in 7, right-aligned, and its region. A server's line has its
/// place in 5 columns, its identifier and its capacity in 10 each, right-aligned, and the name of its site. A number
/// that is wider than its columns stands whole.
///
/// # Errors
///
/// An `AllocError` where memory runs out.
pub fn shortage_report(
    alloc: Global,
    instance: &Instance,
    certificate: &Certificate,
) -> Result<Vec<u8>, AllocError>
    requires { IsShortageFor instance.now certificate.now }
    ensures { IfOk result (λ text. IsShortageReport instance.now certificate.now text.items) }
{
    let set = certificate.as_short().unwrap();
    shortage_text(alloc, instance, &set)
}
