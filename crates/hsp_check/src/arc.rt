/// An arc of the network: a pair of a row and a site that the row may use, the row's server there, and what a query
/// costs.
#[derive(Clone, Copy)]
pub struct NetworkArc {
    pub row: u32,
    pub site: u32,
    pub server: u32,
    pub cost: u64,
}
