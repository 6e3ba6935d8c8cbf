// Sums by source, by server and by host, which are refused where they wrap.

ghost use Rattle.std.specs.Prelude.{◌≡◌, ℕ, ◌+◌, ◌<◌, IfOk, IfSome, IsTrue, length, slice_index, vec_len};
ghost use Rattle.hsp_network.specs.Lists.{HostsAreBelow};
ghost use Rattle.hsp_network.specs.Sums.{AreHosted, AreZero, only};

use std::alloc::{AllocError, Global};

/// Adds the amount to the sum at the place, or returns `false` where the sum would wrap.
pub(crate) fn add(sums: &mut [u64], place: usize, amount: u64) -> bool
    requires { place < length sums.old }
    ensures { IsTrue result → (v : ℕ)
        → slice_index sums.new v ≡ slice_index sums.old v + only place v amount }
{
    if amount == 0 {
        return true;
    }
    match sums[place].checked_add(amount) {
        Some(sum) => {
            sums[place] = sum;
            true
        }
        None => false,
    }
}

// Adds the numbers of servers to the sums of their hosts, which are 0 at first, or returns `false` where a sum would
// wrap.
fn add_hosts(sums: &mut [u64], hosts: &[Option<u32>], numbers: &[u64]) -> bool
    requires many { length numbers.now ≡ length hosts.now }
    requires hosts { HostsAreBelow (length sums.old) hosts.now }
    requires zero { AreZero sums.old }
    ensures { IsTrue result → AreHosted hosts.now numbers.now sums.new }
{
    for server in 0..hosts.len() {
        if let Some(host) = hosts[server] {
            if !add(sums, host as usize, numbers[server]) {
                return false;
            }
        }
    }
    true
}

/// The numbers of servers, added up for each host below the count, or None where a sum would wrap.
pub(crate) fn host_sums(
    alloc: Global,
    hosts: &[Option<u32>],
    numbers: &[u64],
    count: usize,
) -> Result<Option<Vec<u64>>, AllocError>
    requires many { length numbers.now ≡ length hosts.now }
    requires hosts { HostsAreBelow count hosts.now }
    ensures len { IfOk result (λ made. IfSome made (λ sums. vec_len sums ≡ count)) }
    ensures sums { IfOk result
        (λ made. IfSome made (λ sums. AreHosted hosts.now numbers.now sums.items)) }
{
    let mut sums = vec![in alloc; 0; count]?;
    if add_hosts(&mut sums, hosts, numbers) {
        Ok(Some(sums))
    } else {
        Ok(None)
    }
}
