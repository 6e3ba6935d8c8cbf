/// Whether a certificate is valid.
#[derive(Clone, Copy, Debug, PartialEq, Eq)]
pub enum Verdict {
    Yes,
    /// The certificate isn't valid, with the first reason that holds.
    No(Reason),
}

/// Why a certificate isn't valid. Reasons are numbered from 1, in the order in which they are reported.
#[derive(Clone, Copy, Debug, PartialEq, Eq)]
pub enum Reason {
    /// For a plan: there aren't as many prices as rows, servers or hosts. For a short set: a row isn't there.
    Shape = 1,
    /// A row or a site of a use isn't there, or the row may not use the site.
    NoSuchUse,
    /// The uses of a row don't add up to its count.
    RowSum,
    /// A server's load is above its capacity, or a host's above its limit.
    Load,
    /// The stated cost isn't the plan's cost.
    Cost,
    /// A row's price is above the cost of one of its arcs with the prices of the arc's server and host.
    ArcPrice,
    /// A row uses an arc, and its price isn't the arc's cost with the prices of the arc's server and host.
    UsedArcPrice,
    /// A server or a host with room left has a price above 0.
    IdlePrice,
    /// The demand isn't what the rows of the short set ask for.
    DemandSum,
    /// The capacity isn't what the rows of the short set can reach.
    CapacitySum,
    /// The demand isn't above the capacity.
    NotShort,
}
