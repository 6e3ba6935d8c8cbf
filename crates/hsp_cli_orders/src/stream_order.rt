// What `hsplan-stream` is asked to do.

use crate::order::Word;
use hsp_price_report::PriceReportKind;

/// The number of fronts, and the number of one of them: `--fronts N --front K`.
#[derive(Drop)]
pub struct FrontWords<'a> {
    pub fronts: Word<'a>,
    pub front: Word<'a>,
}

/// What defines sites: `--settings F [--values F]`.
#[derive(Drop)]
pub struct SiteFiles<'a> {
    pub settings: Word<'a>,
    pub values: Option<Word<'a>>,
}

/// A log, and the sites at which its handles have places: the files of the sites with `--log F`.
#[derive(Drop)]
pub struct PlaceFiles<'a> {
    pub sites: SiteFiles<'a>,
    pub log: Word<'a>,
}

/// A log, and the service that its queries are for: `--settings F [--values F] --costs F --capacity F --log F`.
#[derive(Drop)]
pub struct ServiceFiles<'a> {
    pub settings: Word<'a>,
    pub values: Option<Word<'a>>,
    pub costs: Word<'a>,
    pub capacity: Word<'a>,
    pub log: Word<'a>,
}

/// A log with its service, and a certificate by prices: the files of the service with `--prices F`.
#[derive(Drop)]
pub struct PriceFiles<'a> {
    pub service: ServiceFiles<'a>,
    pub prices: Word<'a>,
}

/// What is looked at for faulty rows.
#[derive(Clone, Copy, Debug, PartialEq, Eq)]
pub enum FaultsOf {
    /// A table of demand.
    Demand,
    /// A table of costs.
    Costs,
    /// A table of capacities.
    Capacity,
    /// A log.
    Log,
}

/// One command of `hsplan-stream` with its values.
#[derive(Drop)]
pub enum StreamOrder<'a> {
    /// `--help`, also behind a command
    Help,
    /// `--version`
    Version,
    /// `places` with a log and its sites
    Places {
        files: PlaceFiles<'a>,
    },
    /// `plan` with a log and its service
    Plan {
        files: ServiceFiles<'a>,
    },
    /// `answer` with a log, a certificate by prices and what it is checked by, and `[--fronts N --front K]`
    Answer {
        files: PriceFiles<'a>,
        front: Option<FrontWords<'a>>,
    },
    /// `check` with a log, a certificate by prices and what it is checked by
    Check {
        files: PriceFiles<'a>,
    },
    /// `report` with a log, a certificate by prices and what it is checked by, and `--kind K`
    Report {
        files: PriceFiles<'a>,
        kind: PriceReportKind,
    },
    /// `interfaces` with the sites whose servers have them
    Interfaces {
        files: SiteFiles<'a>,
    },
    /// `faults` with one of `--demand F`, `--costs F`, `--capacity F` and `--log F`
    Faults {
        of: FaultsOf,
        file: Word<'a>,
    },
}
