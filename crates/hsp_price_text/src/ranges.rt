// The orders and ranges of a certificate's numbers.

ghost use Rattle.std.specs.Prelude.{◌≡◌, option_map};
ghost use Rattle.std.specs.List.{list_all};
ghost use Rattle.hsp_cert.specs.Certificate.{ascends, goes_on_from};
ghost use Rattle.hsp_price_text.specs.Claim.{are_servers, is_amount, is_before, is_class, is_server};

use crate::class::Class;
use hsp_cert::ranges::are_numbers_ascending;
use hsp_text::is_name;
use hsp_text::limits::MOST_SERVERS;
use std::cmp::Ordering;

// The number of the last server that there may be.
pub(crate) const LAST_SERVER: u32 = MOST_SERVERS as u32 - 1;

// The greatest number of queries of a class that go to a server.
pub(crate) const GREATEST_AMOUNT: u64 = 1_000_000_000_000;

// The greatest number of classes.
pub(crate) const MOST_CLASSES: usize = 1_048_576;

/// Whether a server is within its range.
pub(crate) fn is_server(server: u32) -> bool
    ensures { result ≡ is_server server }
{
    server <= LAST_SERVER
}

// Whether each server is within its range.
fn are_in_range(servers: &[u32]) -> bool
    ensures { result ≡ list_all is_server servers.now }
{
    for server in servers {
        if !is_server(*server) {
            return false;
        }
    }
    true
}

/// Whether servers are within their range and ascend.
pub(crate) fn are_servers(servers: &[u32]) -> bool
    ensures { result ≡ are_servers servers.now }
{
    are_in_range(servers) && are_numbers_ascending(servers)
}

// Whether each amount is within its range.
fn are_amounts(amounts: &[u64]) -> bool
    ensures { result ≡ list_all is_amount amounts.now }
{
    for amount in amounts {
        if *amount > GREATEST_AMOUNT {
            return false;
        }
    }
    true
}

/// Whether a class has a region's name, two servers or more that ascend, and an amount for each.
pub(crate) fn is_class(class: &Class) -> bool
    ensures { result ≡ is_class class.now }
{
    is_name(&class.region)
        && class.servers.len() >= 2
        && are_servers(&class.servers)
        && class.amounts.len() == class.servers.len()
        && are_amounts(&class.amounts)
}

// Whether a class stands before another: by the regions' names, and by the servers within a region.
fn is_before(first: &Class, second: &Class) -> bool
    ensures { result ≡ is_before first.now second.now }
{
    let by_region = first.region.as_slice().cmp(second.region.as_slice());
    by_region.then(first.servers.as_slice().cmp(second.servers.as_slice())) == Ordering::Less
}

/// Whether a class may follow the last one.
pub(crate) fn is_class_after(last: Option<&Class>, next: &Class) -> bool
    ensures { result ≡ goes_on_from is_before (option_map (λ c. c.now) last.entry) next.now }
{
    match last {
        None => true,
        Some(last) => is_before(last, next),
    }
}

/// Whether each class is one.
pub(crate) fn are_classes(classes: &[Class]) -> bool
    ensures { result ≡ list_all is_class classes.now }
{
    for class in classes {
        if !is_class(class) {
            return false;
        }
    }
    true
}

/// Whether classes ascend.
pub(crate) fn are_classes_ascending(classes: &[Class]) -> bool
    ensures { result ≡ ascends is_before classes.now }
{
    let mut last: Option<&Class> = None;
    for next in classes {
        if !is_class_after(last, next) {
            return false;
        }
        last = Some(next);
    }
    true
}
