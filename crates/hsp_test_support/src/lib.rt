// What several crates of tests share: the texts of a worked service.
#![tactic(auto)]

pub mod service;
