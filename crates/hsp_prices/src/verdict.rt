/// Whether a certificate by prices is valid for rows of demand.
#[derive(Clone, Copy, Debug, PartialEq, Eq)]
pub enum PriceVerdict {
    Yes,
    /// The certificate isn't valid, with the first reason that holds.
    No(PriceReason),
}

/// Why a certificate by prices isn't valid. Reasons are numbered from 1, in the order in which they are reported.
#[derive(Clone, Copy, Debug, PartialEq, Eq)]
pub enum PriceReason {
    /// There aren't as many prices as servers or hosts.
    Shape = 1,
    /// A server of a class or of the short set isn't there.
    NoSuchServer,
    /// The servers of a class aren't the least of any row.
    NotLeast,
    /// A row with several least servers has no class, or a row that asks for queries has no server.
    NoClass,
    /// The amounts of a class don't add up to what its rows ask for.
    ClassSum,
    /// A server's load is above its capacity, or a host's above its limit.
    Load,
    /// The stated cost isn't the plan's cost.
    Cost,
    /// A server or a host with room left has a price above 0.
    IdlePrice,
    /// The demand isn't what the rows ask for that can go to servers of the short set only.
    DemandSum,
    /// The capacity isn't what the servers of the short set take.
    CapacitySum,
    /// The demand isn't above the capacity.
    NotShort,
}
