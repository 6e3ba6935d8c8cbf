// A map from pairs of names to their numbers, in the order in which they were added.
#![tactic(auto)]

mod hashing;
mod ordered;
mod pair_map;

pub use pair_map::PairMap;
