// Tests of the instance, of the network simplex with its test, and of the searches. Worked cases that cross crates are
// judged and planned, among them plans and shortages at the limits.
#![tactic(auto)]

#[cfg(test)]
mod accept_tests;
#[cfg(test)]
mod checks;
#[cfg(test)]
mod drawn_tests;
#[cfg(test)]
mod inputs;
#[cfg(test)]
mod instance_tests;
#[cfg(test)]
mod limits;
#[cfg(test)]
mod mincost_tests;
#[cfg(test)]
mod plans;
#[cfg(test)]
mod propose_tests;
#[cfg(test)]
mod same;
