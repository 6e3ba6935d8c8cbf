// The dispatcher: what is left of a plan, and the answers by it.

ghost use Rattle.std.specs.Prelude.{◌≡◌, ◌<◌, ◌≤◌, IfOk, IfSome, length};
ghost use Rattle.hsp_instance.specs.Instance.{IsInstance};
ghost use Rattle.hsp_dispatch.specs.Dispatch.{IsSame};
ghost use Rattle.hsp_dispatch.specs.Shares.{IsLeftBy, IsPlanFor, IsRestOf, answer_by, first_answer, left_of, plan_of};
ghost use Rattle.hsp_dispatch.specs.Shares.{taken_answer};
ghost use Rattle.hsp_log.specs.Entries.{query};

use crate::answer::Answer;
use crate::answering::served;
use crate::share::RowShare;
use crate::sharing::share_out;
use hsp_cert::Certificate;
use hsp_instance::Instance;
use hsp_names::HandleRef;
use std::alloc::{AllocError, Global};
use std::marker::Model;

/// What is left of a plan for each row of its instance.
#[derive(Drop)]
pub struct Dispatcher<'a> {
    instance: &'a Instance,
    shares: Vec<RowShare>,
}

impl<'a> Model for Dispatcher<'a> {
    ghost use Rattle.hsp_dispatch.specs.Shares.{Held, IsHeld};

    ghost Value = { Held };

    ghost view = { λ d. record { instance = d.instance.now; shares = d.shares.items } };

    ghost invariant = { λ d.
        IsHeld (record { instance = d.instance.now; shares = d.shares.items }) };
}

impl<'a> Dispatcher<'a> {
    /// A dispatcher by the plan of a certificate that is valid for the instance.
    ///
    /// # Errors
    ///
    /// An `AllocError` where memory runs out.
    pub fn new(
        alloc: Global,
        instance: &'a Instance,
        certificate: &Certificate,
    ) -> Result<Dispatcher<'a>, AllocError>
        requires { IsPlanFor instance.now certificate.now }
        ensures instance { IfOk result (λ d. d.instance ≡ instance.now) }
        ensures plan { IfOk result (λ d. IsSame (left_of d) (plan_of certificate.now)) }
    {
        let best = certificate.as_best().unwrap();
        let shares = share_out(alloc, instance, best.uses())?;
        Ok(Dispatcher { instance, shares })
    }

    /// The instance whose queries are dispatched.
    pub fn instance(&self) -> &'a Instance
        ensures own { result.now ≡ self.now.instance }
        ensures within { IsInstance result.now }
    {
        self.instance
    }

    /// Answers a query for a handle from a region, and takes it from what is left. It goes to the first site at which
    /// something of the row is left.
    pub fn assign(&mut self, region: &[u8], handle: HandleRef<'_>) -> Answer
        ensures instance { self.new.instance ≡ self.old.instance }
        ensures answer { result ≡ answer_by self.old (query region.now handle.entry) }
        ensures rest { IsLeftBy self.old (query region.now handle.entry) self.new }
    {
        let Some(row) = self.instance.find_row(region, handle.bytes()) else {
            return Answer::Unknown;
        };
        let taken = self.take(row);
        served(self.instance, taken)
    }

    /// How many answers of a row are left for a site, or 0 where the row or the site is not there.
    pub fn left(&self, row: u32, site: u32) -> u64
        ensures { result ≡ left_of self.now row site }
    {
        match self.shares.get(row as usize) {
            Some(share) => share.left(site),
            None => 0,
        }
    }

    /// Takes one query from what is left of a row that is there. Returns the number of the server to which it goes, or
    /// None where nothing is left.
    pub fn take(&mut self, row: u32) -> Option<u32>
        requires { row < length self.old.instance.rows }
        ensures instance { self.new.instance ≡ self.old.instance }
        ensures taken { taken_answer self.old.instance result ≡ first_answer self.old row }
        ensures there { IfSome result (λ server. server < length self.old.instance.servers) }
        ensures rest { IsRestOf self.old row self.new }
    {
        let cell = self.shares[row as usize].take()?;
        Some(cell.server)
    }
}
