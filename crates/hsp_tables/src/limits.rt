// Within which limits a table is read.

/// Within which limits a table of costs is read.
#[derive(Clone, Copy, PartialEq, Eq)]
pub enum Limits {
    /// Beside a table of demand: 2,048 rows of 64 regions.
    Tables,
    /// Beside a log: 131,072 rows of 4,096 regions.
    Logs,
}
