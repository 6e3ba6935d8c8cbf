// Tests of rows that are held and keep some of their arcs, of their groups, of the groups' network and of the
// certificates by prices that rounds over them find, also after a guess.
#![tactic(auto)]

#[cfg(test)]
mod filling;
#[cfg(test)]
mod group_tests;
#[cfg(test)]
mod guess_tests;
#[cfg(test)]
mod judging;
#[cfg(test)]
mod keeping;
#[cfg(test)]
mod network_tests;
#[cfg(test)]
mod plan_tests;
#[cfg(test)]
mod row_tests;
#[cfg(test)]
mod same;
#[cfg(test)]
mod service;
