// The certificate of sources that demand more than all that they can reach can take.

ghost use Rattle.std.specs.Prelude.{◌≡◌, ◌<◌, ◌^◌, IfOk, length};
ghost use Rattle.hsp_cert.specs.Certificate.{IsShort as CertifiesShort};
ghost use Rattle.hsp_cert.specs.Certificate.Claim.{short};
ghost use Rattle.hsp_instance.specs.Instance.{IsInstance};
ghost use Rattle.hsp_check.specs.Instance.{network_of};
ghost use Rattle.hsp_check.specs.Valid.{IsValid};
ghost use Rattle.hsp_network.specs.Answer.{IsShortSet};
ghost use Rattle.hsp_network.specs.Problem.{problem_of};
ghost use Rattle.hsp_flow.specs.Planning.{HasLimitedPrices, flagged_from, transport_of};

use hsp_cert::Certificate;
use hsp_instance::Instance;
use hsp_network::{Network, capacity_of_set, sum_flagged};
use std::alloc::{AllocError, Global};

/// The numbers whose flags are set, in ascending order.
///
/// # Errors
///
/// An `AllocError` where memory runs out.
pub fn flagged(alloc: Global, flags: &[bool]) -> Result<Vec<u32>, AllocError>
    requires { length flags.now < 2 ^ 32 }
    ensures { IfOk result (λ numbers. numbers.items ≡ flagged_from 0 flags.now) }
{
    let mut numbers = Vec::new(alloc);
    for number in 0..flags.len() {
        if flags[number] {
            numbers.push(number as u32)?;
        }
    }
    Ok(numbers)
}

// The certificate with these numbers, which are in order and within their ranges.
fn certificate_of(rows: Vec<u32>, demand: u64, capacity: u64) -> Certificate
    requires { CertifiesShort (record { rows = rows.items; demand = demand; capacity = capacity }) }
    ensures { result ≡ short (record { rows = rows.items; demand = demand; capacity = capacity }) }
{
    Certificate::short(rows, demand, capacity).unwrap()
}

/// The certificate of a short set.
pub(crate) fn short_certificate(
    alloc: Global,
    instance: &Instance,
    network: &Network,
    set: &[bool],
) -> Result<Certificate, AllocError>
    requires network { problem_of network.now ≡ transport_of instance.now }
    requires within { IsInstance instance.now }
    requires short { IsShortSet (transport_of instance.now) set.now }
    ensures valid { IfOk result (IsValid (network_of instance.now)) }
    ensures low { IfOk result (HasLimitedPrices (network_of instance.now)) }
{
    let rows = flagged(alloc, set)?;
    let demand = sum_flagged(network.demands, set);
    let capacity = capacity_of_set(alloc, network, set)?;
    Ok(certificate_of(rows, demand as u64, capacity as u64))
}
