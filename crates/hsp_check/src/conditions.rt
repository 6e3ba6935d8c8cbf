// The conditions of a plan and its prices, each tested by itself.

ghost use Rattle.std.specs.Prelude.{◌≡◌, ◌↔◌, length, IsTrue};
ghost use Rattle.hsp_check.specs.Lists.{AreIdle, AreMet, AreWithin};

/// Whether each demand is equal to its sum.
pub(crate) fn are_met(demands: &[u64], sums: &[u128]) -> bool
    requires { length sums.now ≡ length demands.now }
    ensures { IsTrue result ↔ AreMet demands.now sums.now }
{
    for row in 0..demands.len() {
        if sums[row] != u128::from(demands[row]) {
            return false;
        }
    }
    true
}

/// Whether each sum is within its bound.
pub fn are_within(bounds: &[u64], sums: &[u128]) -> bool
    requires { length sums.now ≡ length bounds.now }
    ensures { IsTrue result ↔ AreWithin bounds.now sums.now }
{
    for place in 0..bounds.len() {
        if sums[place] > u128::from(bounds[place]) {
            return false;
        }
    }
    true
}

/// Whether each price is 0 where the sum is below its bound.
pub fn idle_are_free(bounds: &[u64], sums: &[u128], prices: &[u64]) -> bool
    requires sums { length sums.now ≡ length bounds.now }
    requires prices { length prices.now ≡ length bounds.now }
    ensures { IsTrue result ↔ AreIdle bounds.now sums.now prices.now }
{
    for place in 0..bounds.len() {
        if sums[place] < u128::from(bounds[place]) && prices[place] != 0 {
            return false;
        }
    }
    true
}
