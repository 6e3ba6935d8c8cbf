// The arcs of an instance.

use std::hash::Hash;

/// An arc of a row: the row's queries may go to a site, to the server that is responsible for the row's handle there.
#[derive(Clone, Copy, Debug, PartialEq, Eq, Hash)]
pub struct Arc {
    /// The number of the site.
    pub site: u32,
    /// The number of the server among all servers of the instance.
    pub server: u32,
    /// What a query costs, at most 1,000,000.
    pub cost: u64,
}
