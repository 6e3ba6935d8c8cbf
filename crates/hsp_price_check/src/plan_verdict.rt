// The verdict on the certificate of a plan after a pass.

ghost use Rattle.std.specs.Prelude.{◌≡◌, ◌↔◌, All, IfOk, IsTrue, List, length, sum, true};
ghost use Rattle.hsp_instance.specs.Instance.{Row};
ghost use Rattle.hsp_prices.specs.Rows.{Service};
ghost use Rattle.hsp_price_text.specs.Claim.{Best};
ghost use Rattle.hsp_price_text.specs.declared.certificate.PriceCertificate.TheVariants.{Plan};
ghost use Rattle.hsp_check.specs.Lists.{AreHosted, AreWithin};
ghost use Rattle.hsp_prices.specs.Verdict.{IsVerdict};
ghost use Rattle.hsp_price_check.specs.Passed.{capped};
ghost use Rattle.hsp_price_check.specs.PlanPass.{IsOfRows, IsPlanPass};
ghost use Rattle.hsp_price_check.specs.Verdicts.{AreAskedFor, IsFirstOfClasses, MeetsClasses};

use crate::plan_pass::PlanPass;
use hsp_check::{add_hosts, are_within, idle_are_free};
use hsp_price_text::Class;
use hsp_prices::{PriceReason, PriceVerdict};
use std::alloc::{AllocError, Global};

// Whether each flag is set.
fn are_set(flags: &[bool]) -> bool
    ensures { IsTrue result ↔ All (λ flag. flag ≡ true) flags.now }
{
    for flag in flags {
        if !*flag {
            return false;
        }
    }
    true
}

// What the servers of a class get together.
fn sent_by(class: &Class) -> u128
    ensures { result ≡ capped (sum class.now.amounts) }
{
    let mut sum: u128 = 0;
    for amount in &class.amounts {
        sum = sum.saturating_add(u128::from(*amount));
    }
    sum
}

// Whether each class sends what its rows ask for.
fn are_asked_for(classes: &[Class], asked: &[u128]) -> bool
    requires { length asked.now ≡ length classes.now }
    ensures { IsTrue result ↔ AreAskedFor classes.now asked.now }
{
    for place in 0..classes.len() {
        if sent_by(&classes[place]) != asked[place] {
            return false;
        }
    }
    true
}

impl PlanPass<'_> {
    // The first reason by the classes and their rows that stands.
    fn judge_classes(&self) -> Option<PriceReason>
        requires { IsOfRows self.now }
        ensures { (at : Service) (plan : Best) (rows : List Row) → IsPlanPass at plan rows self.now
            → IsFirstOfClasses at rows plan result }
    {
        if !are_set(&self.sums.seen) {
            return Some(PriceReason::NotLeast);
        }
        if !self.sums.placed {
            return Some(PriceReason::NoClass);
        }
        if !are_asked_for(self.plan.classes(), &self.sums.asked) {
            return Some(PriceReason::ClassSum);
        }
        None
    }

    // The verdict where no server takes too much, by the loads of hosts, by the cost and by prices.
    fn judge_hosts(&self, host_loads: &[u128]) -> PriceVerdict
        requires pass { IsOfRows self.now }
        requires hosts { AreHosted self.now.numbers.server_hosts.items self.now.sums.loads.items
            host_loads.now }
        requires many { length host_loads.now ≡ length self.now.numbers.limits.items }
        requires within { AreWithin self.now.numbers.capacities.items self.now.sums.loads.items }
        ensures { (at : Service) (plan : Best) (rows : List Row) → IsPlanPass at plan rows self.now
            → MeetsClasses at rows plan → IsVerdict at rows (Plan plan) result }
    {
        let numbers = &self.numbers;
        if !are_within(&numbers.limits, host_loads) {
            return PriceVerdict::No(PriceReason::Load);
        }
        if u128::from(self.plan.cost()) != self.sums.cost {
            return PriceVerdict::No(PriceReason::Cost);
        }
        if !idle_are_free(
            &numbers.capacities,
            &self.sums.loads,
            self.plan.server_prices(),
        ) {
            return PriceVerdict::No(PriceReason::IdlePrice);
        }
        if !idle_are_free(&numbers.limits, host_loads, self.plan.host_prices()) {
            return PriceVerdict::No(PriceReason::IdlePrice);
        }
        PriceVerdict::Yes
    }

    // The verdict by loads, cost and prices.
    fn judge_loads(&self, alloc: Global) -> Result<PriceVerdict, AllocError>
        requires { IsOfRows self.now }
        ensures { IfOk result (λ verdict. (at : Service) (plan : Best) (rows : List Row)
            → IsPlanPass at plan rows self.now → MeetsClasses at rows plan
            → IsVerdict at rows (Plan plan) verdict) }
    {
        let numbers = &self.numbers;
        let loads = self.sums.loads.as_slice();
        if !are_within(&numbers.capacities, loads) {
            return Ok(PriceVerdict::No(PriceReason::Load));
        }
        let host_loads = add_hosts(alloc, &numbers.server_hosts, loads, numbers.limits.len())?;
        Ok(self.judge_hosts(&host_loads))
    }

    /// The verdict by the rows that were passed over.
    pub(crate) fn verdict(&self, alloc: Global) -> Result<PriceVerdict, AllocError>
        requires { IsOfRows self.now }
        ensures { IfOk result (λ verdict. (at : Service) (plan : Best) (rows : List Row)
            → IsPlanPass at plan rows self.now → IsVerdict at rows (Plan plan) verdict) }
    {
        match self.judge_classes() {
            Some(reason) => Ok(PriceVerdict::No(reason)),
            None => self.judge_loads(alloc),
        }
    }
}
