// The arcs that rows keep by a guess.

ghost use Rattle.std.specs.Prelude.{IsTrue};
ghost use Rattle.hsp_price_check.specs.LeastPay.{AreLow};
ghost use Rattle.hsp_price_plan.specs.Planning.{AreOfSome, Outlasts};

use crate::groups::Groups;
use crate::guess_network::solve;
use crate::levels::{FIRST_ROWS, Guess, MOST_ROUNDS, guess_of};
use crate::progress::Progress;
use crate::rows::KeptRows;
use crate::terms::Terms;
use hsp_price_check::ServiceNumbers;
use std::alloc::{AllocError, Global};

// The rounds end where a plan of the rows lacks so few arcs: one to so many rows.
const FEW_LEFT: u64 = 100;

// Whether each number is low enough for what a query pays beside an arc's cost.
fn are_low(extras: &[u64]) -> bool
    ensures { IsTrue result → AreLow extras.now }
{
    for extra in extras {
        if *extra > 2_000_000_000_000 {
            return false;
        }
    }
    true
}

// Keeps the arcs over which a query pays at most so much more than the least, where there is a number for each server.
fn keep_near(numbers: &ServiceNumbers, rows: &mut KeptRows, extras: &[u64], window: u64)
    requires { AreOfSome numbers.now rows.old.rows }
    ensures { Outlasts numbers.now rows.old.rows rows.new.rows }
{
    if extras.len() == numbers.server_hosts.len() && are_low(extras) {
        rows.keep_near(extras, window);
    }
}

// Keeps the arcs over which a query pays least, where there is a number for each server, and returns how many weren't
// kept before.
fn keep_least(numbers: &ServiceNumbers, rows: &mut KeptRows, extras: &[u64]) -> u64
    requires { AreOfSome numbers.now rows.old.rows }
    ensures { Outlasts numbers.now rows.old.rows rows.new.rows }
{
    if extras.len() == numbers.server_hosts.len() && are_low(extras) {
        rows.keep_least(extras)
    } else {
        0
    }
}

// The groups of rows.
fn groups_of(alloc: Global, rows: &KeptRows, servers: usize) -> Result<Groups, AllocError> {
    let mut groups = Groups::new(alloc, servers, rows.key())?;
    let mut kept = Vec::new(alloc);
    for row in 0..rows.len() {
        rows.fill_kept(row, &mut kept)?;
        groups.add(alloc, rows.region_of(row), &kept, rows.count(row))?;
    }
    Ok(groups)
}

// Keeps arcs until the rows' network has a plan and few arcs are missing by its prices, or none.
fn keep_until_few_left<P: Progress>(
    alloc: Global,
    numbers: &ServiceNumbers,
    rows: &mut KeptRows,
    penalty: u64,
    progress: &mut P,
) -> Result<(), AllocError>
    requires { AreOfSome numbers.now rows.old.rows }
    ensures { Outlasts numbers.now rows.old.rows rows.new.rows }
{
    let few = rows.len() as u64 / FEW_LEFT;
    let terms = Terms::of_all(penalty);
    'rounds: for _ in 0..MOST_ROUNDS {
        let groups = groups_of(alloc, rows, numbers.capacities.len())?;
        let Some(solved) = solve(alloc, numbers, &groups, terms)? else {
            return Ok(());
        };
        let left = keep_least(numbers, rows, &solved.extras);
        if left == 0 {
            return Ok(());
        }
        progress.left(left);
        if !solved.is_over && left <= few {
            return Ok(());
        }
    }
    Ok(())
}

// Keeps the arcs that cost at most so much more than the cheapest.
fn keep_cheap(
    alloc: Global,
    numbers: &ServiceNumbers,
    rows: &mut KeptRows,
    window: u64,
) -> Result<(), AllocError>
    requires { AreOfSome numbers.now rows.old.rows }
    ensures { Outlasts numbers.now rows.old.rows rows.new.rows }
{
    let free = vec![in alloc; 0; numbers.server_hosts.len()]?;
    keep_near(numbers, rows, &free, window);
    Ok(())
}

/// Keeps arcs of rows that are held, by a guess of which a plan needs. Of up to 8,192 rows it keeps all arcs. Of more
/// rows it keeps those over which a query pays nearly least, by prices of samples, and then more until a plan of all
/// rows needs no others, as far as they show. The same rows always keep the same arcs.
///
/// Beside the rows, the samples take memory: about a quarter of that of the rows.
///
/// No clause says which arcs are kept, since nothing rests on it. A mistake here would cost only time.
///
/// # Errors
///
/// An `AllocError` where memory runs out. Rows may keep more arcs then.
pub fn keep_guessed<P: Progress>(
    alloc: Global,
    numbers: &ServiceNumbers,
    rows: &mut KeptRows,
    progress: &mut P,
) -> Result<(), AllocError>
    requires { AreOfSome numbers.now rows.old.rows }
    ensures { Outlasts numbers.now rows.old.rows rows.new.rows }
{
    if rows.len() <= FIRST_ROWS {
        return keep_cheap(alloc, numbers, rows, u64::MAX);
    }
    let Some(guess) = guess_of(alloc, numbers, rows, progress)? else {
        return keep_cheap(alloc, numbers, rows, 0);
    };
    progress.level(rows.len() as u64);
    keep_near(numbers, rows, &guess.extras, guess.window);
    keep_until_few_left(alloc, numbers, rows, guess.penalty, progress)
}
