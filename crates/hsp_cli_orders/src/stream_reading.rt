// The order that words give to `hsplan-stream`.

ghost use Rattle.std.specs.Prelude.{◌≡◌, [], IfNone, IfOk, IfSome, OnOk, Err, None, codes, map, option_map};
ghost use Rattle.std.specs.Prelude.{string_bytes};
ghost use Rattle.clap.specs.Words.{fault_of, first_of, found_of, rows_of, subcommand_of};
ghost use Rattle.hsp_cli_orders.specs.Commands.{stream_app};
ghost use Rattle.hsp_cli_orders.specs.StreamOrders.{HasFront, HasPlaceFiles};
ghost use Rattle.hsp_cli_orders.specs.StreamOrders.{HasPriceFiles, HasServiceFiles, HasSiteFiles, IsStreamOrder};
ghost use Rattle.hsp_cli_orders.specs.StreamOrders.{IsStreamOrderIn, IsStreamOrdered};
ghost use Rattle.hsp_cli_orders.specs.StreamOrders.{IsStreamUsage, asked, is_help, is_version, price_report_word};
ghost use Rattle.hsp_cli_orders.specs.declared.fault.CommandFault.TheVariants as fault;
ghost use Rattle.hsp_price_report.specs.declared.kind.PriceReportKind.{PriceReportKind};
ghost use Rattle.hsp_cli_orders.specs.declared.stream_order.FrontWords.{FrontWords};
ghost use Rattle.hsp_cli_orders.specs.declared.stream_order.PlaceFiles.{PlaceFiles};
ghost use Rattle.hsp_cli_orders.specs.declared.stream_order.PriceFiles.{PriceFiles};
ghost use Rattle.hsp_cli_orders.specs.declared.stream_order.ServiceFiles.{ServiceFiles};
ghost use Rattle.hsp_cli_orders.specs.declared.stream_order.SiteFiles.{SiteFiles};
ghost use Rattle.hsp_cli_orders.specs.declared.stream_order.StreamOrder.{StreamOrder};
ghost use Rattle.std.specs.Prelude.{Option};

use crate::fault::CommandFault;
use crate::reading::{command_fault, text_of, word_of};
use crate::stream_command;
use crate::stream_order::{
    FaultsOf, FrontWords, PlaceFiles, PriceFiles, ServiceFiles, SiteFiles, StreamOrder,
};
use clap::ArgMatches;
use hsp_price_report::PriceReportKind;
use std::alloc::Global;

fn is_help(word: &str) -> bool
    ensures { result ≡ is_help word.now }
{
    word == "--help" || word == "-h"
}

fn is_version(word: &str) -> bool
    ensures { result ≡ is_version word.now }
{
    word == "--version" || word == "-V"
}

// The request for help or for the version, if the words are one.
fn asked<'a>(words: &'a [String]) -> Option<StreamOrder<'a>>
    ensures { result ≡ asked (map string_bytes words.now) }
{
    match words {
        [word] if is_help(word.as_str()) => Some(StreamOrder::Help),
        [word] if is_version(word.as_str()) => Some(StreamOrder::Version),
        [_, word] if is_help(word.as_str()) => Some(StreamOrder::Help),
        _ => None,
    }
}

// The texts of a front, where both are given, or None where only one is.
fn front_of<'a>(matches: &ArgMatches<'a>) -> Option<Option<FrontWords<'a>>>
    ensures given { IfSome result
        (λ texts. HasFront (rows_of (found_of matches.now)) texts) }
    ensures absent { IfNone result ((front : Option FrontWords)
        → HasFront (rows_of (found_of matches.now)) front → ⊥) }
{
    match (word_of(matches, "fronts"), word_of(matches, "front")) {
        (Some(fronts), Some(front)) => Some(Some(FrontWords { fronts, front })),
        (None, None) => Some(None),
        _ => None,
    }
}

// The names of the files that define sites, or None where one is absent.
fn site_files_of<'a>(matches: &ArgMatches<'a>) -> Option<SiteFiles<'a>>
    ensures given { IfSome result
        (λ files. HasSiteFiles (rows_of (found_of matches.now)) files) }
    ensures absent { IfNone result ((files : SiteFiles)
        → HasSiteFiles (rows_of (found_of matches.now)) files → ⊥) }
{
    Some(SiteFiles {
        settings: word_of(matches, "settings")?,
        values: word_of(matches, "values"),
    })
}

// The names of a log and of what defines its sites, or None where one is absent.
fn place_files_of<'a>(matches: &ArgMatches<'a>) -> Option<PlaceFiles<'a>>
    ensures given { IfSome result
        (λ files. HasPlaceFiles (rows_of (found_of matches.now)) files) }
    ensures absent { IfNone result ((files : PlaceFiles)
        → HasPlaceFiles (rows_of (found_of matches.now)) files → ⊥) }
{
    Some(PlaceFiles {
        sites: site_files_of(matches)?,
        log: word_of(matches, "log")?,
    })
}

fn places_of<'a>(matches: &ArgMatches<'a>) -> Option<StreamOrder<'a>>
    ensures order { IfSome result (λ order.
        IsStreamOrderIn order (codes "places") (rows_of (found_of matches.now))) }
    ensures none { IfNone result ((order : StreamOrder)
        → IsStreamOrderIn order (codes "places") (rows_of (found_of matches.now)) → ⊥) }
{
    Some(StreamOrder::Places {
        files: place_files_of(matches)?,
    })
}

// The names of a log and of the files of its service, or None where one is absent.
fn service_files_of<'a>(matches: &ArgMatches<'a>) -> Option<ServiceFiles<'a>>
    ensures given { IfSome result
        (λ files. HasServiceFiles (rows_of (found_of matches.now)) files) }
    ensures absent { IfNone result ((files : ServiceFiles)
        → HasServiceFiles (rows_of (found_of matches.now)) files → ⊥) }
{
    Some(ServiceFiles {
        settings: word_of(matches, "settings")?,
        values: word_of(matches, "values"),
        costs: word_of(matches, "costs")?,
        capacity: word_of(matches, "capacity")?,
        log: word_of(matches, "log")?,
    })
}

fn plan_of<'a>(matches: &ArgMatches<'a>) -> Option<StreamOrder<'a>>
    ensures order { IfSome result (λ order.
        IsStreamOrderIn order (codes "plan") (rows_of (found_of matches.now))) }
    ensures none { IfNone result ((order : StreamOrder)
        → IsStreamOrderIn order (codes "plan") (rows_of (found_of matches.now)) → ⊥) }
{
    Some(StreamOrder::Plan {
        files: service_files_of(matches)?,
    })
}

// The names of a log, of the files of its service and of a certificate by prices, or None where one is absent.
fn price_files_of<'a>(matches: &ArgMatches<'a>) -> Option<PriceFiles<'a>>
    ensures given { IfSome result
        (λ files. HasPriceFiles (rows_of (found_of matches.now)) files) }
    ensures absent { IfNone result ((files : PriceFiles)
        → HasPriceFiles (rows_of (found_of matches.now)) files → ⊥) }
{
    Some(PriceFiles {
        service: service_files_of(matches)?,
        prices: word_of(matches, "prices")?,
    })
}

fn answer_of<'a>(matches: &ArgMatches<'a>) -> Option<StreamOrder<'a>>
    ensures order { IfSome result (λ order.
        IsStreamOrderIn order (codes "answer") (rows_of (found_of matches.now))) }
    ensures none { IfNone result ((order : StreamOrder)
        → IsStreamOrderIn order (codes "answer") (rows_of (found_of matches.now)) → ⊥) }
{
    Some(StreamOrder::Answer {
        files: price_files_of(matches)?,
        front: front_of(matches)?,
    })
}

fn check_of<'a>(matches: &ArgMatches<'a>) -> Option<StreamOrder<'a>>
    ensures order { IfSome result (λ order.
        IsStreamOrderIn order (codes "check") (rows_of (found_of matches.now))) }
    ensures none { IfNone result ((order : StreamOrder)
        → IsStreamOrderIn order (codes "check") (rows_of (found_of matches.now)) → ⊥) }
{
    Some(StreamOrder::Check {
        files: price_files_of(matches)?,
    })
}

// The report that is asked for by the word.
fn asked_report(word: &str) -> Option<PriceReportKind>
    ensures kind { IfSome result (λ kind. word.now ≡ price_report_word kind) }
    ensures none { IfNone result ((kind : PriceReportKind)
        → word.now ≡ price_report_word kind → ⊥) }
{
    match word {
        "load" => Some(PriceReportKind::Load),
        "region" => Some(PriceReportKind::Region),
        _ => None,
    }
}

fn report_of<'a>(matches: &ArgMatches<'a>) -> Option<StreamOrder<'a>>
    ensures order { IfSome result (λ order.
        IsStreamOrderIn order (codes "report") (rows_of (found_of matches.now))) }
    ensures none { IfNone result ((order : StreamOrder)
        → IsStreamOrderIn order (codes "report") (rows_of (found_of matches.now)) → ⊥) }
{
    Some(StreamOrder::Report {
        files: price_files_of(matches)?,
        kind: asked_report(text_of(matches, "kind")?)?,
    })
}

fn interfaces_of<'a>(matches: &ArgMatches<'a>) -> Option<StreamOrder<'a>>
    ensures order { IfSome result (λ order.
        IsStreamOrderIn order (codes "interfaces") (rows_of (found_of matches.now))) }
    ensures none { IfNone result ((order : StreamOrder)
        → IsStreamOrderIn order (codes "interfaces") (rows_of (found_of matches.now)) → ⊥) }
{
    Some(StreamOrder::Interfaces {
        files: site_files_of(matches)?,
    })
}

// The one file that is given, if there is just one.
fn faults_of<'a>(matches: &ArgMatches<'a>) -> Option<StreamOrder<'a>>
    ensures order { IfSome result (λ order.
        IsStreamOrderIn order (codes "faults") (rows_of (found_of matches.now))) }
    ensures none { IfNone result ((order : StreamOrder)
        → IsStreamOrderIn order (codes "faults") (rows_of (found_of matches.now)) → ⊥) }
{
    let tables = (
        word_of(matches, "demand"),
        word_of(matches, "costs"),
        word_of(matches, "capacity"),
        word_of(matches, "log"),
    );
    let (of, file) = match tables {
        (Some(file), None, None, None) => (FaultsOf::Demand, file),
        (None, Some(file), None, None) => (FaultsOf::Costs, file),
        (None, None, Some(file), None) => (FaultsOf::Capacity, file),
        (None, None, None, Some(file)) => (FaultsOf::Log, file),
        _ => return None,
    };
    Some(StreamOrder::Faults { of, file })
}

// The form of a subcommand with its values. It is decided before anything is copied, so memory can't run out meanwhile.
fn form_of<'a>(name: &str, matches: &ArgMatches<'a>) -> Option<StreamOrder<'a>>
    ensures order { IfSome result (λ order.
        IsStreamOrderIn order name.now (rows_of (found_of matches.now))) }
    ensures none { IfNone result ((order : StreamOrder)
        → IsStreamOrderIn order name.now (rows_of (found_of matches.now)) → ⊥) }
{
    match name {
        "places" => places_of(matches),
        "plan" => plan_of(matches),
        "answer" => answer_of(matches),
        "check" => check_of(matches),
        "report" => report_of(matches),
        "interfaces" => interfaces_of(matches),
        "faults" => faults_of(matches),
        _ => None,
    }
}

// The order of a subcommand with its values. Memory can run out only where they give one.
fn order_of<'a>(name: &str, matches: &ArgMatches<'a>) -> Result<StreamOrder<'a>, CommandFault>
    ensures order { IfOk result
        (λ order. IsStreamOrderIn order name.now (rows_of (found_of matches.now))) }
    ensures usage { result ≡ Err fault.Usage → (order : StreamOrder)
        → IsStreamOrderIn order name.now (rows_of (found_of matches.now)) → ⊥ }
{
    match form_of(name, matches) {
        Some(order) => Ok(order),
        None => Err(CommandFault::Usage),
    }
}

// The order of a command, of words that ask for neither help nor the version.
fn command_order<'a>(alloc: Global, words: &'a [String]) -> Result<StreamOrder<'a>, CommandFault>
    ensures order { IfOk result
        (λ order. IsStreamOrder order (subcommand_of stream_app (map string_bytes words.now))) }
    ensures taken { OnOk result (fault_of stream_app (map string_bytes words.now) ≡ []) }
    ensures usage { result ≡ Err fault.Usage → IsStreamUsage (map string_bytes words.now) }
{
    let command = stream_command(alloc)?;
    let mut matches = match command.try_get_matches_from(words) {
        Ok(matches) => matches,
        Err(error) => return Err(command_fault(&error)),
    };
    match matches.remove_subcommand() {
        Some((name, found)) => order_of(name, &found),
        None => Err(CommandFault::Usage),
    }
}

/// The order that the words give to `hsplan-stream`. The first word is the command.
///
/// `--help` and `--version` are orders where they stand by themselves, and `--help` also behind one word.
///
/// # Errors
///
/// `Usage` for whatever else clap's parser refuses, for only one of `--fronts` and `--front`, and for an unknown kind
/// of report. `OutOfMemory` where memory runs out.
pub fn read_stream_command<'a>(
    alloc: Global,
    words: &'a [String],
) -> Result<StreamOrder<'a>, CommandFault>
    ensures { IsStreamOrdered (map string_bytes words.now) result }
{
    match asked(words) {
        Some(order) => Ok(order),
        None => command_order(alloc, words),
    }
}
