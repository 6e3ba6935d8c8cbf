// The update of the potentials after a search.

ghost use Rattle.std.specs.Prelude.{◌≡◌, ℕ, ◌+◌, ◌-◌, ◌<◌, ◌^◌, length, slice_index};
ghost use Rattle.hsp_network.specs.Search.{top};

/// Raises each price by the amount by which the node's distance is below `reach`, and forgets the distances.
pub fn update_potentials(price: &mut [u64], distance: &mut [u64], reach: u64)
    requires many { length distance.old ≡ length price.old }
    requires fits { (v : ℕ) → v < length price.old → slice_index price.old v
        + (reach - slice_index distance.old v) < 2 ^ 64 }
    ensures by { (v : ℕ) → v < length price.new → slice_index price.new v ≡ slice_index price.old v
        + (reach - slice_index distance.old v) }
    ensures none { (v : ℕ) → v < length distance.new → slice_index distance.new v ≡ top }
{
    for node in 0..price.len() {
        price[node] += reach.saturating_sub(distance[node]);
        distance[node] = u64::MAX;
    }
}
