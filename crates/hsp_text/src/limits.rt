// The limits of inputs and of certificates, each under one name.

/// The greatest number of sites.
pub const MOST_SITES: usize = 32;

/// The greatest number of servers of a site, and of all sites together.
pub const MOST_SERVERS: usize = 1024;

/// The greatest number of hosts.
pub const MOST_HOSTS: usize = 1024;

/// The greatest number of regions that the rows of one table may name.
pub const MOST_REGIONS: usize = 64;

/// The greatest number of regions that the rows of a log may name, and a table of costs beside a log.
pub const MOST_LOG_REGIONS: usize = 4096;

/// The greatest number of rows in the table of demand.
pub const MOST_DEMAND_ROWS: usize = 8192;

/// The greatest number of rows in the table of costs.
pub const MOST_COST_ROWS: usize = 2048;

/// The greatest number of rows in a table of costs beside a log.
pub const MOST_LOG_COST_ROWS: usize = 131_072;

/// The greatest number of rows in the table of capacities.
pub const MOST_CAPACITY_ROWS: usize = 1024;

/// The greatest number of rows in a log.
pub const MOST_LOG_ROWS: u32 = 10_000_000;

/// The greatest number of fronts that may share one plan.
pub const MOST_FRONTS: u32 = 64;

/// The greatest length of the name of a region or a site, in octets.
pub const LONGEST_NAME: usize = 64;

/// The greatest length of a handle, in octets.
pub const LONGEST_HANDLE: usize = 4096;

/// The greatest count of a row of the demand, in queries.
pub const GREATEST_COUNT: u64 = 1_000_000;

/// The greatest cost of a query.
pub const GREATEST_COST: u64 = 1_000_000;

/// The greatest capacity of a server, in queries.
pub const GREATEST_CAPACITY: u64 = 1_000_000_000;

/// The greatest limit of a host: the queries that its servers may take together.
pub const GREATEST_LIMIT: u64 = 1_000_000_000_000;

/// The greatest price in a certificate.
pub const GREATEST_PRICE: u64 = 1_000_000_000_000;

/// The greatest sum in a certificate: a cost, a demand or a capacity.
pub const GREATEST_SUM: u64 = 10_000_000_000_000_000;

/// The greatest size of a file that is read whole, in octets.
pub const LARGEST_FILE: usize = 67_108_864;

/// The greatest length of the first line of an input, in octets.
pub const LONGEST_FIRST_LINE: usize = 65_536;
