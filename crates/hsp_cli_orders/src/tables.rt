// The commands with their arguments.

use Argument::{Needed, Optional, Word};

/// An argument, by how words give it.
#[derive(Clone, Copy)]
pub(crate) enum Argument<'a> {
    /// `--NAME VALUE`, which may be left out.
    Optional(&'a str),
    /// `--NAME VALUE`.
    Needed(&'a str),
    /// A word by its place.
    Word(&'a str),
}

/// A subcommand, with the arguments for its inputs and those of its own.
#[derive(Clone, Copy)]
pub(crate) struct Subcommand<'a> {
    pub(crate) name: &'a str,
    pub(crate) inputs: &'a [Argument<'a>],
    pub(crate) others: &'a [Argument<'a>],
}

// What stands behind each option, and what that is. A line that begins with a program is of this program only.
// tools/gate/write_grammar.py reads these lines.
// --settings FILE: sites and hosts, TOML
// --values FILE: a value list
// --demand FILE: queries of regions for handles, CSV
// --costs FILE: costs from regions to sites, CSV
// --capacity FILE: capacities of servers, CSV
// --plan FILE: a certificate
// --prices FILE: a certificate by prices
// --log FILE: a log, CSV
// --option na|local|handle: what the site hashes
// --servers N: number of servers
// --index N: index of the value
// --kind load|region|shortage: what is shown
// hsplan-stream --kind load|region: what is shown
// --fronts N: number of fronts
// --front N: number of this front, from 0

const INPUTS: [Argument<'static>; 5] = [
    Needed("settings"),
    Optional("values"),
    Needed("demand"),
    Needed("costs"),
    Needed("capacity"),
];

// The inputs of a certificate by prices, for which a log stands in place of the demand.
const PRICE_INPUTS: [Argument<'static>; 4] = [
    Needed("settings"),
    Optional("values"),
    Needed("costs"),
    Needed("capacity"),
];

/// The commands of `hsplan`.
pub(crate) const COMMANDS: [Subcommand<'static>; 6] = [
    Subcommand {
        name: "locate",
        inputs: &[],
        others: &[
            Optional("option"),
            Optional("servers"),
            Optional("settings"),
            Optional("values"),
            Word("handle"),
        ],
    },
    Subcommand {
        name: "site",
        inputs: &[],
        others: &[Optional("index"), Word("file")],
    },
    Subcommand {
        name: "plan",
        inputs: &INPUTS,
        others: &[],
    },
    Subcommand {
        name: "check",
        inputs: &INPUTS,
        others: &[Needed("plan")],
    },
    Subcommand {
        name: "dispatch",
        inputs: &INPUTS,
        others: &[Needed("plan"), Needed("log"), Optional("fronts")],
    },
    Subcommand {
        name: "report",
        inputs: &INPUTS,
        others: &[Needed("plan"), Needed("kind")],
    },
];

/// The commands of `hsplan-stream`.
pub(crate) const STREAM_COMMANDS: [Subcommand<'static>; 7] = [
    Subcommand {
        name: "places",
        inputs: &[Needed("settings"), Optional("values")],
        others: &[Needed("log")],
    },
    Subcommand {
        name: "plan",
        inputs: &PRICE_INPUTS,
        others: &[Needed("log")],
    },
    Subcommand {
        name: "answer",
        inputs: &PRICE_INPUTS,
        others: &[
            Needed("log"),
            Needed("prices"),
            Optional("fronts"),
            Optional("front"),
        ],
    },
    Subcommand {
        name: "check",
        inputs: &PRICE_INPUTS,
        others: &[Needed("log"), Needed("prices")],
    },
    Subcommand {
        name: "report",
        inputs: &PRICE_INPUTS,
        others: &[Needed("log"), Needed("prices"), Needed("kind")],
    },
    Subcommand {
        name: "interfaces",
        inputs: &[Needed("settings"), Optional("values")],
        others: &[],
    },
    Subcommand {
        name: "faults",
        inputs: &[Optional("demand"), Optional("costs"), Optional("capacity")],
        others: &[Optional("log")],
    },
];
