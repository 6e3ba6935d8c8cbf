// Prices by samples that grow.

use crate::groups::Groups;
use crate::guess_network::solve;
use crate::lists::saturating_sum;
use crate::progress::Progress;
use crate::rows::KeptRows;
use crate::sample::Sample;
use crate::sampling::{asked_in, sample_of};
use crate::terms::Terms;
use hsp_price_check::ServiceNumbers;
use std::alloc::{AllocError, Global};

/// How many rows the first sample has, about.
pub(crate) const FIRST_ROWS: usize = 8_192;

/// The most rounds of a level.
pub(crate) const MOST_ROUNDS: usize = 40;

// The most levels.
const MOST_LEVELS: usize = 16;

// A sample's rounds end where so few of its rows have a better arc than those that they keep: one of so many.
const FEW_LEFT: u64 = 500;

// How many times the greatest cost a query pays that is left over.
const PENALTY: u64 = 64;

/// What a query pays at each server beside an arc's cost, how much more than the least it may pay over an arc that is
/// kept, and what a query pays that is left over.
#[derive(Drop)]
pub(crate) struct Guess {
    pub(crate) extras: Vec<u64>,
    pub(crate) window: u64,
    pub(crate) penalty: u64,
}

impl Guess {
    // No prices yet, so all arcs are kept.
    fn first(alloc: Global, servers: usize) -> Result<Guess, AllocError> {
        Ok(Guess {
            extras: vec![in alloc; 0; servers]?,
            window: u64::MAX,
            penalty: 0,
        })
    }
}

// The groups of a sample's rows.
fn groups_of(alloc: Global, sample: &Sample, servers: usize) -> Result<Groups, AllocError> {
    let mut groups = Groups::new(alloc, servers, sample.key())?;
    let mut kept = Vec::new(alloc);
    for row in 0..sample.len() {
        sample.fill_kept(row, &mut kept)?;
        groups.add(alloc, sample.region(row), &kept, sample.weight(row))?;
    }
    Ok(groups)
}

// Prices of a sample by which few of its rows have a better arc than those that they keep. Rows keep more arcs. It is
// None where the first network has no solution.
fn settled<P: Progress>(
    alloc: Global,
    numbers: &ServiceNumbers,
    sample: &mut Sample,
    terms: Terms,
    progress: &mut P,
) -> Result<Option<Vec<u64>>, AllocError> {
    let mut found = None;
    for _ in 0..MOST_ROUNDS {
        let groups = groups_of(alloc, sample, numbers.capacities.len())?;
        let Some(solved) = solve(alloc, numbers, &groups, terms)? else {
            return Ok(found);
        };
        let left = sample.keep_least(&solved.extras);
        found = Some(solved.extras);
        if left <= sample.len() as u64 / FEW_LEFT {
            return Ok(found);
        }
        progress.left(left);
    }
    Ok(found)
}

// The guess by a sample, whose rows keep arcs by the guess before, for the next one, which has about `next_rows`. It is
// None where the network has no solution.
fn next_guess<P: Progress>(
    alloc: Global,
    numbers: &ServiceNumbers,
    sample: &mut Sample,
    sizes: Sizes,
    progress: &mut P,
) -> Result<Option<Guess>, AllocError> {
    let penalty = sample
        .greatest_cost()
        .saturating_add(1)
        .saturating_mul(PENALTY);
    let terms = Terms {
        part: saturating_sum(sample.weights()),
        whole: sizes.asked,
        penalty,
    };
    let Some(extras) = settled(alloc, numbers, sample, terms, progress)? else {
        return Ok(None);
    };
    let window = sample.window_for(alloc, &extras, sizes.next_rows)?;
    Ok(Some(Guess {
        extras,
        window,
        penalty,
    }))
}

// How many queries all rows ask for, and how many rows the next level has, about.
#[derive(Clone, Copy, Drop)]
struct Sizes {
    asked: u64,
    next_rows: usize,
}

// How many rows the level has that follows one of so many, about: four times as many, or all.
fn after(rows: usize, all: usize) -> usize {
    let next = rows.saturating_mul(4);
    if next < all / 2 { next } else { all }
}

/// The guess for all rows, by samples of them. It is None where a network has no solution.
pub(crate) fn guess_of<P: Progress>(
    alloc: Global,
    numbers: &ServiceNumbers,
    rows: &KeptRows,
    progress: &mut P,
) -> Result<Option<Guess>, AllocError> {
    let asked = asked_in(rows);
    let mut guess = Guess::first(alloc, numbers.capacities.len())?;
    let mut want = FIRST_ROWS;
    for _ in 0..MOST_LEVELS {
        if want >= rows.len() {
            return Ok(Some(guess));
        }
        let next_rows = after(want, rows.len());
        let mut sample = sample_of(alloc, rows, asked, want as u64)?;
        progress.level(sample.len() as u64);
        sample.keep_near(&guess.extras, guess.window);
        let sizes = Sizes { asked, next_rows };
        let found = next_guess(alloc, numbers, &mut sample, sizes, progress)?;
        let Some(next) = found else {
            return Ok(None);
        };
        guess = next;
        want = next_rows;
    }
    Ok(Some(guess))
}
