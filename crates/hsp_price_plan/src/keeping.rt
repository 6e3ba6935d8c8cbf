// To keep more arcs of one row.

ghost use Rattle.std.specs.Prelude.{◌≡◌, ◌≤◌, ◌-◌, ◌^◌, filter, length, map, nat_le, not};
ghost use Rattle.std.specs.List.{list_all};
ghost use Rattle.hsp_transport.specs.Lists.{flag_at};
ghost use Rattle.hsp_price_check.specs.Extras.{pay_by};
ghost use Rattle.hsp_price_check.specs.LeastPay.{AreLow};
ghost use Rattle.hsp_prices.specs.KeptRows.{with_least, with_leaving};
ghost use Rattle.hsp_price_plan.specs.Entries.{AreKept, LeadWithin, arcs_by, bare_arcs};
ghost use Rattle.hsp_price_plan.specs.Keeping.{IsKeptBy, IsLow, kept_by, least_from, servers_in, with_near};

use crate::entries::{KEPT, keep_entry, leads_out, pay_over};
use crate::region::SiteCost;

/// Which arcs of a row are kept from now on. What a query pays is the cost of an arc and the number of its server.
#[derive(Clone, Copy)]
pub(crate) enum Keep<'a> {
    /// Those over which a query pays least.
    Least(&'a [u64]),
    /// Those over which a query pays at most so much more than the least.
    Near(&'a [u64], u64),
    /// Those that lead out of a set of servers, where no arc that is kept does. Each server has a flag.
    Leaving(&'a [bool]),
}

// The least that a query pays over one of the arcs, and the greatest number where there is none.
fn least_pay(entries: &[u16], shape: &[SiteCost], extras: &[u64]) -> u64
    requires many { length shape.now ≤ length entries.now }
    requires within { LeadWithin (length extras.now) shape.now entries.now }
    requires low { AreLow extras.now }
    ensures { result
        ≡ least_from (pay_by extras.now) (2 ^ 64 - 1) (bare_arcs shape.now entries.now) }
{
    let mut least = u64::MAX;
    for i in 0..shape.len() {
        least = least.min(pay_over(shape[i], entries[i], extras));
    }
    least
}

// Keeps the arcs over which a query pays no more than `most`, and returns how many weren't kept before.
fn keep_up_to(entries: &mut [u16], shape: &[SiteCost], extras: &[u64], most: u64) -> u64
    requires many { length shape.now ≤ length entries.old }
    requires within { LeadWithin (length extras.now) shape.now entries.old }
    requires low { AreLow extras.now }
    ensures { AreKept (λ arc. nat_le (pay_by extras.now arc) most)
        (arcs_by shape.now entries.old) (arcs_by shape.now entries.new) result }
{
    let mut kept = 0;
    for i in 0..shape.len() {
        let passes = pay_over(shape[i], entries[i], extras) <= most;
        kept += keep_entry(&mut entries[i], passes);
    }
    kept
}

// Keeps the arcs over which a query pays least, and returns how many weren't kept before.
fn keep_least(entries: &mut [u16], shape: &[SiteCost], extras: &[u64]) -> u64
    requires many { length shape.now ≤ length entries.old }
    requires within { LeadWithin (length extras.now) shape.now entries.old }
    requires low { AreLow extras.now }
    ensures { IsKeptBy (with_least (pay_by extras.now)) shape.now entries.old entries.new result }
{
    let least = least_pay(entries, shape, extras);
    keep_up_to(entries, shape, extras, least)
}

// Keeps the arcs over which a query pays at most so much more than the least, and returns how many weren't kept before.
fn keep_near(entries: &mut [u16], shape: &[SiteCost], extras: &[u64], window: u64) -> u64
    requires many { length shape.now ≤ length entries.old }
    requires within { LeadWithin (length extras.now) shape.now entries.old }
    requires low { AreLow extras.now }
    ensures { IsKeptBy (with_near (pay_by extras.now) window) shape.now entries.old entries.new
        result }
{
    let most = least_pay(entries, shape, extras).saturating_add(window);
    keep_up_to(entries, shape, extras, most)
}

// Whether each kept arc leads into a set of servers.
fn lead_into(entries: &[u16], shape: &[SiteCost], set: &[bool]) -> bool
    requires many { length shape.now ≤ length entries.now }
    requires within { LeadWithin (length set.now) shape.now entries.now }
    ensures { result ≡ list_all (λ arc. flag_at set.now arc.server)
        (map (λ a. a.arc) (filter (λ a. a.is_kept) (arcs_by shape.now entries.now))) }
{
    for i in 0..shape.len() {
        if leads_out(entries[i], set) {
            return false;
        }
    }
    true
}

// Keeps the arcs that lead out of a set of servers, and returns how many weren't kept before.
fn keep_outside(entries: &mut [u16], shape: &[SiteCost], set: &[bool]) -> u64
    requires many { length shape.now ≤ length entries.old }
    requires within { LeadWithin (length set.now) shape.now entries.old }
    ensures { AreKept (λ arc. not (flag_at set.now arc.server))
        (arcs_by shape.now entries.old) (arcs_by shape.now entries.new) result }
{
    let mut kept = 0;
    for i in 0..shape.len() {
        let passes = !set[usize::from(entries[i] % KEPT)];
        kept += keep_entry(&mut entries[i], passes);
    }
    kept
}

// Keeps the arcs that lead out of a set of servers, where no arc that is kept does, and returns how many weren't kept
// before.
fn keep_leaving(entries: &mut [u16], shape: &[SiteCost], set: &[bool]) -> u64
    requires many { length shape.now ≤ length entries.old }
    requires within { LeadWithin (length set.now) shape.now entries.old }
    ensures { IsKeptBy (with_leaving (flag_at set.now)) shape.now entries.old entries.new result }
{
    if lead_into(entries, shape, set) {
        keep_outside(entries, shape, set)
    } else {
        0
    }
}

/// Keeps more arcs, and returns how many weren't kept before.
pub(crate) fn keep_more(entries: &mut [u16], shape: &[SiteCost], which: Keep<'_>) -> u64
    requires many { length shape.now ≤ length entries.old }
    requires within { LeadWithin (servers_in which) shape.now entries.old }
    requires low { IsLow which }
    ensures { IsKeptBy (kept_by which.entry) shape.now entries.old entries.new result }
{
    match which {
        Keep::Least(extras) => keep_least(entries, shape, extras),
        Keep::Near(extras, window) => keep_near(entries, shape, extras, window),
        Keep::Leaving(set) => keep_leaving(entries, shape, set),
    }
}
