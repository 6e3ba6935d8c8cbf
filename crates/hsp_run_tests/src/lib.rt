// Tests of the command line and of the runs behind the program.
#![tactic(auto)]

#[cfg(test)]
mod command_tests;
#[cfg(test)]
mod dispatch_tests;
#[cfg(test)]
mod fronts_tests;
#[cfg(test)]
mod greatest_tests;
#[cfg(test)]
mod held;
#[cfg(test)]
mod line_tests;
#[cfg(test)]
mod log_runs;
#[cfg(test)]
mod report_tests;
#[cfg(test)]
mod run_tests;
#[cfg(test)]
mod same;
