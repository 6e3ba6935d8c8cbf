// Fronts: dispatchers that share one plan, each with a fixed share of it.

ghost use Rattle.std.specs.Prelude.{◌≡◌, ◌≢◌, ◌+◌, ◌*◌, ◌++◌, ◌<◌, ◌≤◌, IfErr, IfOk, IfSome, Ok, OnErr, OnOk, length};
ghost use Rattle.hsp_text.specs.declared.limits.TheConstants.{MOST_FRONTS};
ghost use Rattle.hsp_names.specs.Handle.{handle_in};
ghost use Rattle.hsp_instance.specs.Instance.{IsInstance};
ghost use Rattle.hsp_check.specs.Uses.{table};
ghost use Rattle.hsp_dispatch.specs.Fronts.{AreFrontsOf, IsTakenAt, IsTakenOf, answer_among, fronts_of, held_at};
ghost use Rattle.hsp_dispatch.specs.Fronts.{left_at_front};
ghost use Rattle.hsp_dispatch.specs.Lines.{IsAmong};
ghost use Rattle.hsp_dispatch.specs.Shares.{AreUsesOf, HoldsTable, IsHeld, IsPlanFor, first_answer, holding, plan_of};
ghost use Rattle.hsp_dispatch.specs.Shares.{taken_answer};
ghost use Rattle.hsp_log.specs.Entries.{query};
ghost use Rattle.hsp_dispatch.specs.Standings.{all_sums, place_of, sums_of};
ghost use Rattle.hsp_dispatch.specs.Steps.{TakesAt, entry_of};
ghost use Rattle.hsp_log.specs.declared.fault.LogFault.TheVariants.{BadHandle};

use crate::answer::{Answer, FrontAnswer, Given};
use crate::answering::{LentEntry, given_by, row_in, served};
use crate::counts::Counts;
use crate::plan_cells::PlanCells;
use crate::row_cells::RowCells;
use crate::sharing::share_out;
use hsp_cert::{Certificate, UseLine};
use hsp_instance::Instance;
use hsp_log::{Front, LogFault};
use hsp_names::HandleRef;
use std::alloc::{AllocError, Global};
use std::marker::Model;

/// For each front, what is left of its share of a plan.
///
/// The share of front `f` of `F` in a number `x` is the quotient of `x` by `F`, and 1 more where `f` is below the
/// remainder.
///
/// The rows' cells stand once for all fronts. A front has one number for each row: how many queries it has left in all
/// cells of the row together. It uses the cells in their order. The numbers of a row's fronts stand side by side.
#[derive(Drop)]
pub struct Fronts<'a> {
    instance: &'a Instance,
    fronts: u32,
    plan: PlanCells,
    lefts: Counts,
}

impl<'a> Model for Fronts<'a> {
    ghost use Rattle.std.specs.Prelude.{◌≡◌, ◌*◌, length};
    ghost use Rattle.hsp_dispatch.specs.Fronts.{AreHeld, Tables};
    ghost use Rattle.hsp_dispatch.specs.Standings.{lefts_of};

    ghost Value = { Tables };

    ghost view = { λ f. record {
      instance = f.instance.now;
      fronts = f.fronts;
      shares = lefts_of f.fronts f.plan f.lefts;
    } };

    ghost invariant = { λ f. AreHeld (record {
      instance = f.instance.now;
      fronts = f.fronts;
      shares = lefts_of f.fronts f.plan f.lefts;
    })
        × (length f.lefts ≡ length f.plan * f.fronts) };
}

// Appends how much each front has of a row at first.
fn push_sums(sums: &mut Vec<u32>, row: &RowCells, fronts: u32) -> Result<(), AllocError>
    requires { 0 < fronts }
    ensures { OnOk result (sums.new.items ≡ sums.old.items ++ sums_of fronts fronts row.now) }
{
    for number in 0..fronts {
        sums.push(row.all(Front { fronts, number }))?;
    }
    Ok(())
}

// The cells that uses of the instance give each row.
fn rows_by(
    alloc: Global,
    instance: &Instance,
    uses: &[UseLine],
) -> Result<Vec<RowCells>, AllocError>
    requires { AreUsesOf instance.now uses.now }
    ensures held { IfOk result (λ rows. IsHeld (holding instance.now rows.items)) }
    ensures table { IfOk result (λ rows. HoldsTable uses.now (holding instance.now rows.items)) }
{
    let shares = share_out(alloc, instance, uses)?;
    let mut rows = Vec::with_capacity(alloc, shares.len())?;
    for share in &shares {
        rows.push(RowCells::new(share.cells(alloc)?))?;
    }
    Ok(rows)
}

// How much each front has of each row at first.
fn sums_in(alloc: Global, rows: &[RowCells], fronts: u32) -> Result<Vec<u32>, AllocError>
    requires { 0 < fronts }
    ensures { IfOk result (λ sums. sums.items ≡ all_sums fronts rows.now) }
{
    let room = rows.len().saturating_mul(fronts as usize);
    let mut sums = Vec::with_capacity(alloc, room)?;
    for row in rows {
        push_sums(&mut sums, row, fronts)?;
    }
    Ok(sums)
}

impl<'a> Fronts<'a> {
    /// Fronts, from 1 to `MOST_FRONTS` of them, by the plan of a certificate that is valid for the instance.
    ///
    /// # Errors
    ///
    /// An `AllocError` where memory runs out.
    pub fn new(
        alloc: Global,
        instance: &'a Instance,
        certificate: &Certificate,
        fronts: u32,
    ) -> Result<Fronts<'a>, AllocError>
        requires plan { IsPlanFor instance.now certificate.now }
        requires some { 1 ≤ fronts }
        requires most { fronts ≤ MOST_FRONTS }
        ensures { IfOk result (AreFrontsOf instance.now (plan_of certificate.now) fronts) }
    {
        let best = certificate.as_best().unwrap();
        Fronts::over(alloc, instance, best.uses(), fronts)
    }

    // Fronts by uses of the instance.
    fn over(
        alloc: Global,
        instance: &'a Instance,
        uses: &[UseLine],
        fronts: u32,
    ) -> Result<Fronts<'a>, AllocError>
        requires uses { AreUsesOf instance.now uses.now }
        requires some { 0 < fronts }
        ensures { IfOk result (AreFrontsOf instance.now (table uses.now) fronts) }
    {
        let rows = rows_by(alloc, instance, uses)?;
        let lefts = Counts::of(alloc, sums_in(alloc, &rows, fronts)?)?;
        let plan = PlanCells::of(alloc, rows)?;
        Ok(Fronts {
            instance,
            fronts,
            plan,
            lefts,
        })
    }

    /// The instance whose queries are dispatched.
    pub fn instance(&self) -> &'a Instance
        ensures own { result.now ≡ self.now.instance }
        ensures within { IsInstance result.now }
    {
        self.instance
    }

    /// Answers a query at a front, for a handle from a region: as a dispatcher would by what the front has left, from
    /// which the query is taken. What the other fronts have left stays as it is.
    pub fn assign(&mut self, front: u32, region: &[u8], handle: HandleRef<'_>) -> FrontAnswer
        ensures answer { result ≡ answer_among self.old front (query region.now handle.entry) }
        ensures taken { IsTakenAt front (query region.now handle.entry) self.old self.new }
        ensures none { fronts_of self.old ≤ front → self.new ≡ self.old }
    {
        if front >= self.fronts {
            return FrontAnswer::NoFront;
        }
        let Some(row) = self.instance.find_row(region, handle.bytes()) else {
            return FrontAnswer::Answered(Answer::Unknown);
        };
        let instance = self.instance;
        let taken = self.take(front, row);
        FrontAnswer::Answered(served(instance, taken))
    }

    /// Answers the entry in the row with this number, and takes what it is answered by from what the front has left.
    /// Where there is no such front, the handle is still read.
    pub(crate) fn choose(
        &mut self,
        front: u32,
        lent: LentEntry<'_>,
        number: u32,
    ) -> Result<Given, LogFault>
        ensures among { IfOk result (IsAmong (length self.old.instance.servers)) }
        ensures takes { IfOk result (TakesAt front self.old (entry_of lent.entry) self.new) }
        ensures fault { IfErr result (λ e. e ≡ BadHandle number) }
        ensures bad { OnErr result (handle_in lent.entry.handle.now ≢ Ok lent.entry.handle.now) }
        ensures stays { OnErr result (self.new ≡ self.old) }
    {
        let found = row_in(self.instance(), lent, number)?;
        if front >= self.fronts {
            return Ok(Given::NoFront);
        }
        let Some(row) = found else {
            return Ok(Given::Unknown);
        };
        Ok(given_by(self.take(front, row)))
    }

    // The place of the number that a front has left of a row.
    fn place(&self, front: u32, row: u32) -> usize
        ensures { result ≡ place_of (fronts_of self.now) front row }
    {
        row as usize * self.fronts as usize + front as usize
    }

    // Takes one query from what a front has left of a row. Returns the number of the server to which it goes, or None
    // where nothing is left.
    fn take(&mut self, front: u32, row: u32) -> Option<u32>
        requires front { front < fronts_of self.old }
        requires row { row < length self.old.instance.rows }
        ensures taken { taken_answer self.old.instance result
            ≡ first_answer (held_at self.old front) row }
        ensures there { IfSome result (λ server. server < length self.old.instance.servers) }
        ensures rest { IsTakenOf front row self.old self.new }
    {
        let place = self.place(front, row);
        let left = self.lefts.take(place);
        let fronts = self.fronts;
        let number = front;
        self.plan.server(row, left, Front { fronts, number })
    }

    /// How many queries of a row a front has left for a site, or 0 where the front, the row or the site is not there.
    pub fn left(&self, front: u32, row: u32, site: u32) -> u64
        ensures { result ≡ left_at_front self.now front row site }
    {
        if front >= self.fronts {
            return 0;
        }
        if row as usize >= self.plan.len() {
            return 0;
        }
        let left = self.lefts.get(self.place(front, row));
        let fronts = self.fronts;
        let number = front;
        self.plan.left(row, left, site, Front { fronts, number })
    }
}
