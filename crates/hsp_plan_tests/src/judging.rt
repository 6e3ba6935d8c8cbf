// Certificates by prices, what they say and how they are judged.

ghost use Rattle.std.specs.Prelude.{OnOk};
ghost use Rattle.hsp_price_check.specs.Checking.{IsOfSomeRows};

use crate::filling::Asked;
use crate::same::is_same;
use crate::service::Held;
use hsp_names::HandleRef;
use hsp_price_check::{PassFault, PriceCheck};
use hsp_price_text::{PriceCertificate, write_prices};
use hsp_prices::PriceVerdict;
use std::alloc::{AllocError, Global};
use std::process::Abort;

/// The certificate says this.
pub(crate) fn says(rt: &impl Abort, alloc: Global, certificate: &PriceCertificate, wanted: &[u8]) {
    let text = match write_prices(alloc, certificate) {
        Ok(text) => text,
        Err(AllocError) => write_prices(alloc, certificate).expect(rt, "there is memory"),
    };
    is_same(rt, text.as_slice(), wanted);
}

// Passes over a row.
fn pass(check: &mut PriceCheck<'_>, alloc: Global, row: Asked<'_>) -> Result<(), PassFault>
    requires { IsOfSomeRows check.old }
    ensures { OnOk result (IsOfSomeRows check.new) }
{
    let Ok(handle) = HandleRef::parse(row.handle) else {
        return Err(PassFault::TooManyRegions);
    };
    check.add(alloc, row.region, handle, row.count)?;
    Ok(())
}

// The verdict by rows.
fn judged_once(
    alloc: Global,
    held: &Held,
    certificate: &PriceCertificate,
    rows: &[Asked<'_>],
) -> Result<PriceVerdict, PassFault> {
    let mut check = PriceCheck::new(alloc, &held.instance, &held.costs, certificate)?;
    for row in rows {
        pass(&mut check, alloc, *row)?;
    }
    Ok(check.verdict(alloc)?)
}

/// The certificate is valid for the rows.
pub(crate) fn is_valid(
    rt: &impl Abort,
    alloc: Global,
    held: &Held,
    certificate: &PriceCertificate,
    rows: &[Asked<'_>],
) {
    let verdict = match judged_once(alloc, held, certificate, rows) {
        Err(PassFault::OutOfMemory) => judged_once(alloc, held, certificate, rows),
        ended => ended,
    };
    is_same(rt, verdict.ok(), Some(PriceVerdict::Yes));
}
