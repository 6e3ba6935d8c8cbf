// The files of commands, read in their order.

ghost use Rattle.std.specs.Prelude.{IfErr, IfOk};
ghost use Rattle.hsp_cli.specs.Failing.{IsUnread};
ghost use Rattle.hsp_stream_cli.specs.Files.{ArePricesHeld, AreSourcesHeld, PricesFail, AreServiceHeld, ServiceFails};
ghost use Rattle.hsp_stream_cli.specs.Files.{SourcesFail};

use hsp_cli::{FileSource, Unread, read_named, read_path};
use hsp_cli_orders::{PriceFiles, ServiceFiles, SiteFiles};
use hsp_inputs::Inputs;
use std::alloc::Global;

/// The octets that define sites: settings, and the value list that they may refer to.
#[derive(Drop)]
pub(crate) struct Sources {
    pub(crate) settings: Vec<u8>,
    pub(crate) values: Option<Vec<u8>>,
}

/// A certificate by prices, and the inputs that it is checked by, but for the log.
#[derive(Drop)]
pub(crate) struct Priced {
    pub(crate) inputs: Inputs,
    pub(crate) prices: Vec<u8>,
}

/// The files that define sites.
pub(crate) fn read_sources<S: FileSource>(
    alloc: Global,
    files: &S,
    named: &SiteFiles<'_>,
) -> Result<Sources, Unread>
    ensures held { IfOk result
        (λ sources. AreSourcesHeld (S.disk files.now) named.now sources) }
    ensures unread { IfErr result (IsUnread (SourcesFail (S.disk files.now) named.now)) }
{
    Ok(Sources {
        settings: read_path(alloc, files, &named.settings)?,
        values: read_named(alloc, files, &named.values)?,
    })
}

/// The files of a service, but for the log of its queries.
pub(crate) fn read_service<S: FileSource>(
    alloc: Global,
    files: &S,
    named: &ServiceFiles<'_>,
) -> Result<Inputs, Unread>
    ensures held { IfOk result (AreServiceHeld (S.disk files.now) named.now) }
    ensures unread { IfErr result (IsUnread (ServiceFails (S.disk files.now) named.now)) }
{
    Ok(Inputs {
        settings: read_path(alloc, files, &named.settings)?,
        values: read_named(alloc, files, &named.values)?,
        demand: None,
        costs: read_path(alloc, files, &named.costs)?,
        capacity: read_path(alloc, files, &named.capacity)?,
    })
}

/// A certificate by prices, and the files that it is checked by, but for the log.
pub(crate) fn read_prices<S: FileSource>(
    alloc: Global,
    files: &S,
    named: &PriceFiles<'_>,
) -> Result<Priced, Unread>
    ensures held { IfOk result (λ priced. ArePricesHeld (S.disk files.now) named.now priced) }
    ensures unread { IfErr result (IsUnread (PricesFail (S.disk files.now) named.now)) }
{
    let inputs = read_service(alloc, files, &named.service)?;
    let prices = read_path(alloc, files, &named.prices)?;
    Ok(Priced { inputs, prices })
}
