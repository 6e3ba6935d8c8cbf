// The check of a short set.

ghost use Rattle.std.specs.Prelude.{◌≡◌, ℕ, ◌<◌, ◌↔◌, false, length, All, IfOk, IfSome, IfNone, IsTrue, vec_len};
ghost use Rattle.hsp_cert.specs.Certificate.Claim.{short};
ghost use Rattle.hsp_check.specs.declared.verdict.Reason.TheVariants.{DemandSum, CapacitySum};
ghost use Rattle.hsp_check.specs.Lists.{AreFlagsOf};
ghost use Rattle.hsp_check.specs.Reach.{network_in};
ghost use Rattle.hsp_check.specs.Verdict.{IsVerdict, SetMeets, is_one_of};

use crate::lists::FlowLists;
use crate::shortage::{capacity_of_rows, sum_flagged};
use crate::verdict::{Reason, Verdict};
use hsp_cert::ShortRef;
use std::alloc::{AllocError, Global};

// Flags the rows, up to the first that isn't there. None is flagged at first.
fn flag_rows(flags: &mut [bool], rows: &[u32]) -> bool
    requires { AreFlagsOf (λ _. false) (length flags.old) flags.old }
    ensures there { IsTrue result ↔ All (λ r. r < length flags.old) rows.now }
    ensures flags { IsTrue result → AreFlagsOf (is_one_of rows.now) (length flags.old) flags.new }
{
    for place in 0..rows.len() {
        let row = rows[place] as usize;
        if row >= flags.len() {
            return false;
        }
        flags[row] = true;
    }
    true
}

/// A flag for each row below `count`, set for the listed rows, or None where a listed row isn't below `count`.
///
/// # Errors
///
/// An `AllocError` where memory runs out.
pub fn flags_of(alloc: Global, rows: &[u32], count: usize) -> Result<Option<Vec<bool>>, AllocError>
    ensures there { IfOk result (λ flags. IfSome flags (λ _. All (λ r. r < count) rows.now)) }
    ensures lost { IfOk result (λ flags. IfNone flags (All (λ r. r < count) rows.now → ⊥)) }
    ensures len { IfOk result (λ flags. IfSome flags (λ f. length f.items ≡ count)) }
    ensures flags { IfOk result (λ flags. IfSome flags (λ f.
        AreFlagsOf (is_one_of rows.now) count f.items)) }
{
    let mut flags = vec![in alloc; false; count]?;
    if flag_rows(&mut flags, rows) {
        Ok(Some(flags))
    } else {
        Ok(None)
    }
}

// Whether the demand is what the rows of the set ask for.
fn meets_demand(lists: FlowLists<'_>, set: &ShortRef<'_>, flags: &[bool]) -> bool
    requires many { length flags.now ≡ length lists.demands.now }
    requires flags { AreFlagsOf (is_one_of set.now.rows) (length lists.demands.now) flags.now }
    ensures { IsTrue result ↔ SetMeets (network_in lists.entry) set.now DemandSum }
{
    u128::from(set.demand()) == sum_flagged(lists.demands, flags)
}

// Whether the capacity is what the rows of the set can reach.
fn meets_capacity(
    alloc: Global,
    lists: FlowLists<'_>,
    set: &ShortRef<'_>,
    flags: &[bool],
) -> Result<bool, AllocError>
    requires many { length flags.now ≡ length lists.demands.now }
    requires flags { AreFlagsOf (is_one_of set.now.rows) (length lists.demands.now) flags.now }
    ensures { IfOk result (λ met.
        IsTrue met ↔ SetMeets (network_in lists.entry) set.now CapacitySum) }
{
    let capacity = capacity_of_rows(alloc, lists, flags)?;
    Ok(u128::from(set.capacity()) == capacity)
}

/// The verdict on the certificate of a short set.
pub(crate) fn check_set(
    alloc: Global,
    lists: FlowLists<'_>,
    set: &ShortRef<'_>,
) -> Result<Verdict, AllocError>
    ensures { IfOk result (λ verdict. IsVerdict (network_in lists.entry) (short set.now) verdict) }
{
    let Some(flags) = flags_of(alloc, set.rows(), lists.demands.len())? else {
        return Ok(Verdict::No(Reason::Shape));
    };
    if !meets_demand(lists, set, &flags) {
        return Ok(Verdict::No(Reason::DemandSum));
    }
    if !meets_capacity(alloc, lists, set, &flags)? {
        return Ok(Verdict::No(Reason::CapacitySum));
    }
    if set.demand() <= set.capacity() {
        return Ok(Verdict::No(Reason::NotShort));
    }
    Ok(Verdict::Yes)
}
