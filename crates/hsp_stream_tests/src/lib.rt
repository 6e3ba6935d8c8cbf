// Tests of the runs over logs of any length: places, plans, certificates by prices and answers by them, interfaces, and
// faulty rows.
// Then of the lines that are printed, and of what the runs stand on: rows that are lines, rows that were seen.
#![tactic(auto)]

#[cfg(test)]
mod fakes;
#[cfg(test)]
mod faulty_tests;
#[cfg(test)]
mod interface_tests;
#[cfg(test)]
mod line_tests;
#[cfg(test)]
mod plan_tests;
#[cfg(test)]
mod price_answer_tests;
#[cfg(test)]
mod price_tests;
#[cfg(test)]
mod row_tests;
#[cfg(test)]
mod run_tests;
#[cfg(test)]
mod same;
#[cfg(test)]
mod tally_tests;
#[cfg(test)]
mod worked;
