// What runs read from their inputs.

ghost use Rattle.std.specs.Prelude.{option_map};
ghost use Rattle.hsp_inputs.specs.Readings.{AreListed, AreSites, AreSitesIn, IsCertificateIn, ReadsSettings};
ghost use Rattle.hsp_inputs.specs.Readings.{ReadsValues};
ghost use Rattle.hsp_inputs.specs.Memory.{OrNoMemory};

use crate::fault::Fault;
use crate::parts::named;
use hsp_cert::CertFault;
use hsp_instance::{Sites, build_sites};
use hsp_price_text::{PriceCertificate, read_prices};
use hsp_record::{ValueList, decode_values};
use hsp_tables::{Settings, read_settings};
use std::alloc::Global;

/// The settings.
///
/// # Errors
///
/// `Settings`, or `OutOfMemory`.
pub fn settings_in(alloc: Global, octets: &[u8]) -> Result<Settings, Fault>
    ensures { OrNoMemory (ReadsSettings octets.now) result }
{
    named(read_settings(alloc, octets), Fault::Settings)
}

// A value list.
fn list_in(alloc: Global, octets: &[u8]) -> Result<ValueList<'_>, Fault>
    ensures { OrNoMemory (AreListed octets.now) result }
{
    named(decode_values(alloc, octets), Fault::Values)
}

/// The value list, where one is given.
///
/// # Errors
///
/// `Values`, or `OutOfMemory`.
pub fn values_in<'a>(
    alloc: Global,
    octets: Option<&'a [u8]>,
) -> Result<Option<ValueList<'a>>, Fault>
    ensures { OrNoMemory (ReadsValues (option_map (λ o. o.now) octets.entry)) result }
{
    match octets {
        None => Ok(None),
        Some(octets) => Ok(Some(list_in(alloc, octets)?)),
    }
}

/// The sites of settings and values.
///
/// # Errors
///
/// `Build`, or `OutOfMemory`.
pub fn sites_from_settings(
    alloc: Global,
    settings: &Settings,
    values: Option<&ValueList<'_>>,
) -> Result<Sites, Fault>
    ensures { OrNoMemory (AreSites settings.now (option_map (λ v. v.now) values.entry)) result }
{
    named(build_sites(alloc, settings, values), Fault::Build)
}

/// The sites that settings define, with the value list, where one is given.
///
/// # Errors
///
/// In this order: `Settings`, `Values`, `Build`; `OutOfMemory` where memory runs out.
pub fn sites_in(alloc: Global, settings: &[u8], values: Option<&[u8]>) -> Result<Sites, Fault>
    ensures { OrNoMemory (AreSitesIn settings.now (option_map (λ o. o.now) values.entry)) result }
{
    let settings = settings_in(alloc, settings)?;
    let values = values_in(alloc, values)?;
    sites_from_settings(alloc, &settings, values.as_ref())
}

/// The certificate by prices that octets spell.
///
/// # Errors
///
/// `Cert`, or `OutOfMemory`.
pub fn certificate_in(alloc: Global, octets: &[u8]) -> Result<PriceCertificate, Fault>
    ensures { OrNoMemory (IsCertificateIn octets.now) result }
{
    match read_prices(alloc, octets) {
        Ok(certificate) => Ok(certificate),
        Err(CertFault::OutOfMemory) => Err(Fault::OutOfMemory),
        Err(fault) => Err(Fault::Cert(fault)),
    }
}
