// The order that words give.

ghost use Rattle.std.specs.Prelude.{◌≡◌, ◌≢◌, ◌↔◌, [], true, false, IfNone, IfOk, IfSome, OnOk, Err, None, codes, map};
ghost use Rattle.std.specs.Prelude.{option_map, string_bytes};
ghost use Rattle.clap.specs.Words.{fault_of, found_of, kind_of, rows_of, first_of, subcommand_of};
ghost use Rattle.clap.specs.declared.error.kind.ErrorKind.TheVariants as kind;
ghost use Rattle.hsp_cli_orders.specs.Commands.{hsplan_app};
ghost use Rattle.hsp_cli_orders.specs.Orders.{HasInputs, HasNoPlace, IsOrderIn, IsOrderOf, IsUsage, report_word};
ghost use Rattle.hsp_cli_orders.specs.declared.fault.CommandFault.TheVariants as fault;
ghost use Rattle.hsp_cli_orders.specs.declared.order.InputFiles.{InputFiles};
ghost use Rattle.hsp_report.specs.declared.kind.ReportKind.{ReportKind};
ghost use Rattle.hsp_cli_orders.specs.declared.order.Order.{Order};

use crate::fault::CommandFault;
use crate::hsplan_command;
use crate::order::{InputFiles, Order, Word};
use clap::error::ErrorKind;
use clap::{ArgMatches, Error};
use hsp_report::ReportKind;
use std::alloc::Global;

// The value of this name, where it was given.
pub(crate) fn text_of<'a>(matches: &ArgMatches<'a>, name: &str) -> Option<&'a str>
    ensures { first_of name.now (rows_of (found_of matches.now))
        ≡ option_map (λ text. text.now) result }
{
    matches.get_str(name)
}

// The same as a word.
pub(crate) fn word_of<'a>(matches: &ArgMatches<'a>, name: &str) -> Option<Word<'a>>
    ensures { first_of name.now (rows_of (found_of matches.now)) ≡ result }
{
    match text_of(matches, name) {
        Some(text) => Some(Word::of(text)),
        None => None,
    }
}

/// The names of the input files, or None where one is absent.
fn inputs_of<'a>(matches: &ArgMatches<'a>) -> Option<InputFiles<'a>>
    ensures given { IfSome result
        (λ texts. HasInputs (rows_of (found_of matches.now)) texts) }
    ensures absent { IfNone result ((inputs : InputFiles)
        → HasInputs (rows_of (found_of matches.now)) inputs → ⊥) }
{
    Some(InputFiles {
        settings: word_of(matches, "settings")?,
        values: word_of(matches, "values"),
        demand: word_of(matches, "demand")?,
        costs: word_of(matches, "costs")?,
        capacity: word_of(matches, "capacity")?,
    })
}

// Whether there is a value of this name.
fn is_given(matches: &ArgMatches<'_>, name: &str) -> bool
    ensures given { result ≡ true
        → first_of name.now (rows_of (found_of matches.now)) ≡ None → ⊥ }
    ensures absent { result ≡ false
        → first_of name.now (rows_of (found_of matches.now)) ≡ None }
{
    match text_of(matches, name) {
        Some(_text) => true,
        None => false,
    }
}

// The form of `locate` that asks for a place.
fn place_of<'a>(matches: &ArgMatches<'a>) -> Option<Order<'a>>
    requires settings { first_of (codes "settings") (rows_of (found_of matches.now)) ≡ None }
    requires values { first_of (codes "values") (rows_of (found_of matches.now)) ≡ None }
    ensures order { IfSome result (λ order.
        IsOrderIn order (codes "locate") (rows_of (found_of matches.now))) }
    ensures none { IfNone result ((order : Order)
        → IsOrderIn order (codes "locate") (rows_of (found_of matches.now))
        → HasNoPlace (rows_of (found_of matches.now))) }
{
    Some(Order::LocatePlace {
        option: word_of(matches, "option")?,
        servers: word_of(matches, "servers")?,
        handle: word_of(matches, "handle")?,
    })
}

// The form of `locate` that asks for sites.
fn sites_of<'a>(matches: &ArgMatches<'a>) -> Option<Order<'a>>
    requires { HasNoPlace (rows_of (found_of matches.now)) }
    ensures order { IfSome result (λ order.
        IsOrderIn order (codes "locate") (rows_of (found_of matches.now))) }
    ensures none { IfNone result ((order : Order)
        → IsOrderIn order (codes "locate") (rows_of (found_of matches.now)) → ⊥) }
{
    Some(Order::LocateSites {
        settings: word_of(matches, "settings")?,
        values: word_of(matches, "values"),
        handle: word_of(matches, "handle")?,
    })
}

// One of the two forms of `locate`, and neither a mixture nor a part.
fn locate_of<'a>(matches: &ArgMatches<'a>) -> Option<Order<'a>>
    ensures order { IfSome result (λ order.
        IsOrderIn order (codes "locate") (rows_of (found_of matches.now))) }
    ensures none { IfNone result ((order : Order)
        → IsOrderIn order (codes "locate") (rows_of (found_of matches.now)) → ⊥) }
{
    if !is_given(matches, "option") && !is_given(matches, "servers") {
        return sites_of(matches);
    }
    if is_given(matches, "settings") || is_given(matches, "values") {
        return None;
    }
    place_of(matches)
}

// The form of `site`, or None where a word is absent.
fn site_of<'a>(matches: &ArgMatches<'a>) -> Option<Order<'a>>
    ensures order { IfSome result (λ order.
        IsOrderIn order (codes "site") (rows_of (found_of matches.now))) }
    ensures none { IfNone result ((order : Order)
        → IsOrderIn order (codes "site") (rows_of (found_of matches.now)) → ⊥) }
{
    Some(Order::Site {
        index: word_of(matches, "index"),
        file: word_of(matches, "file")?,
    })
}

// The form of `plan`, or None where a word is absent.
fn plan_of<'a>(matches: &ArgMatches<'a>) -> Option<Order<'a>>
    ensures order { IfSome result (λ order.
        IsOrderIn order (codes "plan") (rows_of (found_of matches.now))) }
    ensures none { IfNone result ((order : Order)
        → IsOrderIn order (codes "plan") (rows_of (found_of matches.now)) → ⊥) }
{
    Some(Order::Plan {
        inputs: inputs_of(matches)?,
    })
}

// The form of `check`, or None where a word is absent.
fn check_of<'a>(matches: &ArgMatches<'a>) -> Option<Order<'a>>
    ensures order { IfSome result (λ order.
        IsOrderIn order (codes "check") (rows_of (found_of matches.now))) }
    ensures none { IfNone result ((order : Order)
        → IsOrderIn order (codes "check") (rows_of (found_of matches.now)) → ⊥) }
{
    Some(Order::Check {
        inputs: inputs_of(matches)?,
        plan: word_of(matches, "plan")?,
    })
}

// The form of `dispatch`, or None where a word is absent.
fn dispatch_of<'a>(matches: &ArgMatches<'a>) -> Option<Order<'a>>
    ensures order { IfSome result (λ order.
        IsOrderIn order (codes "dispatch") (rows_of (found_of matches.now))) }
    ensures none { IfNone result ((order : Order)
        → IsOrderIn order (codes "dispatch") (rows_of (found_of matches.now)) → ⊥) }
{
    Some(Order::Dispatch {
        inputs: inputs_of(matches)?,
        plan: word_of(matches, "plan")?,
        log: word_of(matches, "log")?,
        fronts: word_of(matches, "fronts"),
    })
}

// The report that is asked for by the word.
fn asked_report(word: &str) -> Option<ReportKind>
    ensures kind { IfSome result (λ kind. word.now ≡ report_word kind) }
    ensures none { IfNone result ((kind : ReportKind) → word.now ≡ report_word kind → ⊥) }
{
    match word {
        "load" => Some(ReportKind::Load),
        "region" => Some(ReportKind::Region),
        "shortage" => Some(ReportKind::Shortage),
        _ => None,
    }
}

// The form of `report`, or None where a word is absent.
fn report_of<'a>(matches: &ArgMatches<'a>) -> Option<Order<'a>>
    ensures order { IfSome result (λ order.
        IsOrderIn order (codes "report") (rows_of (found_of matches.now))) }
    ensures none { IfNone result ((order : Order)
        → IsOrderIn order (codes "report") (rows_of (found_of matches.now)) → ⊥) }
{
    Some(Order::Report {
        inputs: inputs_of(matches)?,
        plan: word_of(matches, "plan")?,
        kind: asked_report(text_of(matches, "kind")?)?,
    })
}

// The form of a subcommand that takes a certificate.
fn certificate_form_of<'a>(name: &str, matches: &ArgMatches<'a>) -> Option<Order<'a>>
    requires locate { name.now ≢ codes "locate" }
    requires site { name.now ≢ codes "site" }
    requires plan { name.now ≢ codes "plan" }
    ensures order { IfSome result (λ order.
        IsOrderIn order name.now (rows_of (found_of matches.now))) }
    ensures none { IfNone result ((order : Order)
        → IsOrderIn order name.now (rows_of (found_of matches.now)) → ⊥) }
{
    match name {
        "check" => check_of(matches),
        "dispatch" => dispatch_of(matches),
        "report" => report_of(matches),
        _ => None,
    }
}

// The form of a subcommand with its values. It is decided before anything is copied, so memory can't run out meanwhile.
fn form_of<'a>(name: &str, matches: &ArgMatches<'a>) -> Option<Order<'a>>
    ensures order { IfSome result (λ order.
        IsOrderIn order name.now (rows_of (found_of matches.now))) }
    ensures none { IfNone result ((order : Order)
        → IsOrderIn order name.now (rows_of (found_of matches.now)) → ⊥) }
{
    match name {
        "locate" => locate_of(matches),
        "site" => site_of(matches),
        "plan" => plan_of(matches),
        _ => certificate_form_of(name, matches),
    }
}

// The order of a subcommand with its values.
fn order_of<'a>(name: &str, matches: &ArgMatches<'a>) -> Result<Order<'a>, CommandFault>
    ensures order { IfOk result
        (λ order. IsOrderIn order name.now (rows_of (found_of matches.now))) }
    ensures usage { result ≡ Err fault.Usage → (order : Order)
        → IsOrderIn order name.now (rows_of (found_of matches.now)) → ⊥ }
    ensures sure { result ≢ Err fault.OutOfMemory }
{
    match form_of(name, matches) {
        Some(order) => Ok(order),
        None => Err(CommandFault::Usage),
    }
}

// What an error of clap's parser says.
pub(crate) fn command_fault(error: &Error) -> CommandFault
    ensures { result ≡ fault.OutOfMemory ↔ (kind_of error.now ≡ kind.OutOfMemory) }
{
    if error.kind() == ErrorKind::OutOfMemory {
        CommandFault::OutOfMemory
    } else {
        CommandFault::Usage
    }
}

/// The order that the words give. The first word is the command.
///
/// ```
/// let words = split_words(alloc, b"locate --settings s 10/3")?.unwrap();
/// let order = read_command(alloc, &words)?;
/// assert!(rt; matches!(&order, Order::LocateSites { settings, .. } if settings.as_str() == "s"));
/// ```
///
/// # Errors
///
/// `Usage` for what clap's parser refuses, for a request for help, for a mixture or a part of the two forms of
/// `locate`, and for an unknown kind of report. `OutOfMemory` where memory runs out.
pub fn read_command<'a>(alloc: Global, words: &'a [String]) -> Result<Order<'a>, CommandFault>
    ensures order { IfOk result
        (λ order. IsOrderOf order (subcommand_of hsplan_app (map string_bytes words.now))) }
    ensures taken { OnOk result (fault_of hsplan_app (map string_bytes words.now) ≡ []) }
    ensures usage { result ≡ Err fault.Usage → IsUsage (map string_bytes words.now) }
{
    let command = hsplan_command(alloc)?;
    let mut matches = match command.try_get_matches_from(words) {
        Ok(matches) => matches,
        Err(error) => return Err(command_fault(&error)),
    };
    match matches.remove_subcommand() {
        Some((name, found)) => order_of(name, &found),
        None => Err(CommandFault::Usage),
    }
}
