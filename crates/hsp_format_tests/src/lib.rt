// Tests of texts, names, hashes, records, tables, certificates and talks: what each public call answers, and what no
// contract says. Test vectors of MD5 and of places of servers are theorems.
#![tactic(auto)]

#[cfg(test)]
mod cert_tests;
#[cfg(test)]
mod csv_tests;
#[cfg(test)]
mod fakes;
#[cfg(test)]
mod hash_tests;
#[cfg(test)]
mod held;
pub mod known;
mod laws;
#[cfg(test)]
mod names_tests;
#[cfg(test)]
mod pair_map_tests;
#[cfg(test)]
mod price_text_tests;
#[cfg(test)]
mod record_tests;
#[cfg(test)]
mod same;
#[cfg(test)]
mod tables_tests;
#[cfg(test)]
mod talk_tests;
#[cfg(test)]
mod text_tests;

pub use laws::{part_vectors, standard_vectors};
