// What a query is answered by.

ghost use Rattle.std.specs.Prelude.{◌≡◌, ◌≤◌, ◌<◌, ◌+◌, IfOk, OnOk, drop, filter, length};
ghost use Rattle.std.specs.List.{AllByRecursion};
ghost use Rattle.hsp_instance.specs.RowArcs.{IsWithin};
ghost use Rattle.hsp_prices.specs.Least.{least_arcs};
ghost use Rattle.hsp_price_check.specs.Extras.{pay_by};
ghost use Rattle.hsp_price_check.specs.LeastPay.{AreLow};
ghost use Rattle.hsp_price_text.specs.Claim.{Best};
ghost use Rattle.hsp_price_check.specs.ClassNumbers.{HasClasses};
ghost use Rattle.hsp_price_dispatch.specs.Choosing.{assigned_over, at_first, by_class, by_place};
ghost use Rattle.hsp_price_dispatch.specs.Choosing.{by_room, can_give, choice_over};
ghost use Rattle.hsp_price_dispatch.specs.Choosing.{class_number, elsewhere, fuller, fullest, has_wanted};
ghost use Rattle.hsp_price_dispatch.specs.Choosing.{has_wanted_at, is_fuller, place_at, places_from};
ghost use Rattle.hsp_price_dispatch.specs.SeenLeast.{lent_least};
ghost use Rattle.hsp_price_dispatch.specs.Standing.{ClassIsThere, IsIndexOf};
ghost use Rattle.hsp_price_dispatch.specs.declared.answer.Choice.TheVariants.{Diverted as over};

use crate::answer::Choice;
use crate::cells::Cell;
use crate::holding::Holding;
use crate::seen_least::LentLeast;
use hsp_instance::Arc;
use hsp_price_check::{FirstNumbers, fill_least, fill_servers, find_class};
use std::alloc::AllocError;

/// An arc of a class's row, with the cell of its server and the number of this cell.
#[derive(Clone, Copy)]
pub(crate) struct Place {
    pub(crate) arc: Arc,
    pub(crate) number: usize,
    pub(crate) cell: Cell,
}

/// What servers cost beside their arcs, and where the cells of a class stand. Nothing of it changes.
#[derive(Drop)]
pub(crate) struct Index {
    pub(crate) extras: Vec<u64>,
    pub(crate) classes: FirstNumbers,
    pub(crate) firsts: Vec<usize>,
}

/// Lists that are written anew for each query.
#[derive(Drop)]
pub(crate) struct Scratch {
    pub(crate) least: Vec<Arc>,
    pub(crate) passing: Vec<Arc>,
    pub(crate) servers: Vec<u32>,
}

/// The room that a query is diverted to.
#[derive(Clone, Copy)]
pub(crate) enum Wanted {
    /// Room that is held for no class.
    Free,
    /// Any room.
    Any,
}

// Whether a greater part is left of the first amount than of the second.
fn is_fuller(a: Cell, b: Cell) -> bool
    ensures { result ≡ is_fuller a b }
{
    u128::from(b.left) * u128::from(a.share) < u128::from(a.left) * u128::from(b.share)
}

// The place of which the greater part is left, the first where the parts are the same.
fn fuller(place: Place, later: Option<Place>) -> Place
    ensures { result ≡ fuller place later }
{
    match later {
        Some(later) => {
            if is_fuller(later.cell, place.cell) {
                later
            } else {
                place
            }
        }
        None => place,
    }
}

// Whether something is left of the place's amount, and there is room.
fn can_give(holding: &Holding<'_>, place: Place) -> bool
    requires { place.arc.server < length holding.now.service.servers }
    ensures { result ≡ can_give holding.now place }
{
    place.cell.left > 0 && holding.has_room(place.arc.server)
}

// The place of an arc, where the cell of the first one has the number `first`.
fn place_at(cells: &[Cell], first: usize, arcs: &[Arc], at: usize) -> Place
    requires arc { at < length arcs.now }
    requires cell { first + at < length cells.now }
    ensures { result ≡ place_at cells.now first arcs.now at }
{
    let number = first + at;
    Place {
        arc: arcs[at],
        number,
        cell: cells[number],
    }
}

// The place of which the greatest part is left, of those over arcs that can give. Their cells stand from number
// `first` on.
fn fullest(holding: &Holding<'_>, first: usize, arcs: &[Arc]) -> Option<Place>
    requires within { AllByRecursion (IsWithin (length holding.now.service.servers)) arcs.now }
    requires cells { first + length arcs.now ≤ length holding.now.cells }
    ensures { result ≡ fullest holding.now
        (places_from first arcs.now (drop first holding.now.cells)) }
{
    let cells = holding.cells();
    let mut best: Option<Place> = None;
    let mut at = arcs.len();
    'places: while at > 0 {
        at -= 1;
        let place = place_at(cells, first, arcs, at);
        if can_give(holding, place) {
            best = Some(fuller(place, best));
        }
    }
    best
}

// By a place, where there is one.
fn by_place(place: Option<Place>) -> Option<Choice>
    ensures { result ≡ by_place place }
{
    match place {
        Some(place) => Some(Choice::OfClass(place.number, place.arc)),
        None => None,
    }
}

// By the class of these least arcs, where there is one that can give.
fn by_class(holding: &Holding<'_>, index: &Index, least: LentLeast<'_>) -> Option<Choice>
    requires index { IsIndexOf holding.now index.now }
    requires within { AllByRecursion (IsWithin (length holding.now.service.servers))
        least.arcs.now }
    requires class { ClassIsThere holding.now.plan least.arcs.now least.class }
    ensures { result ≡ by_class holding.now least.entry.arcs.now least.entry.class }
{
    let class = least.class?;
    let first = index.firsts[class as usize];
    by_place(fullest(holding, first, least.arcs))
}

// By free room over the first of the arcs that leads to some.
fn by_room(holding: &Holding<'_>, least: &[Arc]) -> Option<Choice>
    requires { AllByRecursion (IsWithin (length holding.now.service.servers)) least.now }
    ensures { result ≡ by_room holding.now least.now }
{
    for arc in least {
        if holding.is_free(arc.server) {
            return Some(Choice::Free(*arc));
        }
    }
    None
}

// Whether a server has such room.
fn has_wanted(holding: &Holding<'_>, wanted: Wanted, server: u32) -> bool
    requires { server < length holding.now.service.servers }
    ensures { result ≡ has_wanted_at holding.now wanted server }
{
    match wanted {
        Wanted::Free => holding.is_free(server),
        Wanted::Any => holding.has_room(server),
    }
}

// Writes the arcs to servers with such room over what the list had.
fn fill_passing(
    passing: &mut Vec<Arc>,
    holding: &Holding<'_>,
    wanted: Wanted,
    arcs: &[Arc],
) -> Result<(), AllocError>
    requires { AllByRecursion (IsWithin (length holding.now.service.servers)) arcs.now }
    ensures { OnOk result (passing.new.items ≡ filter (has_wanted holding.now wanted) arcs.now) }
{
    passing.clear();
    for arc in arcs {
        if has_wanted(holding, wanted, arc.server) {
            passing.push(*arc)?;
        }
    }
    Ok(())
}

// Over the first arc of least pay.
fn divert(least: &mut Vec<Arc>, arcs: &[Arc], extras: &[u64]) -> Result<Option<Choice>, AllocError>
    requires within { AllByRecursion (IsWithin (length extras.now)) arcs.now }
    requires low { AreLow extras.now }
    ensures { IfOk result (λ by. by ≡ at_first over (least_arcs (pay_by extras.now) arcs.now)) }
{
    fill_least(least, arcs, extras)?;
    match least.first() {
        Some(arc) => Ok(Some(Choice::Diverted(*arc))),
        None => Ok(None),
    }
}

// Over an arc with free room, and otherwise over one with room that is held for others.
fn elsewhere(
    holding: &Holding<'_>,
    index: &Index,
    scratch: &mut Scratch,
    arcs: &[Arc],
) -> Result<Option<Choice>, AllocError>
    requires index { IsIndexOf holding.now index.now }
    requires within { AllByRecursion (IsWithin (length holding.now.service.servers)) arcs.now }
    ensures { IfOk result (λ by. by ≡ elsewhere holding.now arcs.now) }
{
    fill_passing(&mut scratch.passing, holding, Wanted::Free, arcs)?;
    let free = divert(&mut scratch.least, &scratch.passing, &index.extras)?;
    if let Some(choice) = free {
        return Ok(Some(choice));
    }
    fill_passing(&mut scratch.passing, holding, Wanted::Any, arcs)?;
    divert(&mut scratch.least, &scratch.passing, &index.extras)
}

/// By a class or by free room over the least arcs.
pub(crate) fn assigned(holding: &Holding<'_>, index: &Index, least: LentLeast<'_>) -> Option<Choice>
    requires index { IsIndexOf holding.now index.now }
    requires within { AllByRecursion (IsWithin (length holding.now.service.servers))
        least.arcs.now }
    requires class { ClassIsThere holding.now.plan least.arcs.now least.class }
    ensures { result ≡ assigned_over holding.now (lent_least least.entry) }
{
    match by_class(holding, index, least) {
        Some(choice) => Some(choice),
        None => by_room(holding, least.arcs),
    }
}

/// Writes the least of a row's arcs over what the list had, and returns the number of their class, if they have one.
pub(crate) fn find_least(
    index: &Index,
    scratch: &mut Scratch,
    region: &[u8],
    arcs: &[Arc],
) -> Result<Option<u32>, AllocError>
    requires within { AllByRecursion (IsWithin (length index.now.extras.items)) arcs.now }
    requires low { AreLow index.now.extras.items }
    ensures least { OnOk result (scratch.new.least.items
        ≡ least_arcs (pay_by index.now.extras.items) arcs.now) }
    ensures class { IfOk result (λ class. (plan : Best)
        → HasClasses plan.classes index.now.classes.entries
        → class ≡ class_number plan region.now scratch.new.least.items) }
{
    fill_least(&mut scratch.least, arcs, &index.extras)?;
    if scratch.least.len() < 2 {
        return Ok(None);
    }
    fill_servers(&mut scratch.servers, &scratch.least)?;
    Ok(find_class(&index.classes, region, &scratch.servers))
}

/// What a query with these arcs is answered by, whose least arcs were written. They have the class with this number,
/// if there is one.
pub(crate) fn choose(
    holding: &Holding<'_>,
    index: &Index,
    scratch: &mut Scratch,
    class: Option<u32>,
    arcs: &[Arc],
) -> Result<Choice, AllocError>
    requires index { IsIndexOf holding.now index.now }
    requires within { AllByRecursion (IsWithin (length holding.now.service.servers)) arcs.now }
    requires least_within { AllByRecursion (IsWithin (length holding.now.service.servers))
        scratch.old.least.items }
    requires class { ClassIsThere holding.now.plan scratch.old.least.items class }
    ensures { IfOk result (λ choice. choice ≡ choice_over holding.now
        (record { arcs = scratch.old.least.items; class = class }) arcs.now) }
{
    if arcs.is_empty() {
        return Ok(Choice::Unknown);
    }
    let least = LentLeast {
        arcs: &scratch.least,
        class,
    };
    if let Some(choice) = assigned(holding, index, least) {
        return Ok(choice);
    }
    let other = elsewhere(holding, index, scratch, arcs)?;
    match other {
        Some(choice) => Ok(choice),
        None => Ok(Choice::Full),
    }
}
