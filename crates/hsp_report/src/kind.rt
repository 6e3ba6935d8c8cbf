// What reports show.

/// What a report shows.
#[derive(Debug, Clone, Copy, PartialEq, Eq)]
pub enum ReportKind {
    /// `load`: what each server takes by a plan.
    Load,
    /// `region`: what each region asks for, and what that costs by a plan.
    Region,
    /// `shortage`: the rows of a short set and the servers that they reach.
    Shortage,
}
