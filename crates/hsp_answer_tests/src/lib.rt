// Tests of the dispatcher, of fronts, of the dispatcher by prices, and of the reports.
#![tactic(auto)]

#[cfg(test)]
mod building;
#[cfg(test)]
mod dispatcher_tests;
#[cfg(test)]
pub mod fakes;
#[cfg(test)]
mod front_run_tests;
#[cfg(test)]
mod fronts_tests;
#[cfg(test)]
mod log_cases;
#[cfg(test)]
mod price_dispatch_tests;
#[cfg(test)]
mod report_tests;
#[cfg(test)]
mod run_tests;
#[cfg(test)]
mod same;
#[cfg(test)]
mod worked;
