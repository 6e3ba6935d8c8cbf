// The answers to commands, from the files that they name.

ghost use Rattle.std.specs.Prelude.{◌≡◌, map, string_bytes};
ghost use Rattle.hsp_runs.specs.Locate.{placed};
ghost use Rattle.hsp_cli.specs.Answers.{IsAnswered, text_reply};
ghost use Rattle.hsp_cli.specs.Commands.{AnswersCheck, AnswersPlan, AnswersReport, AnswersSite, AnswersSites};
ghost use Rattle.hsp_cli.specs.Commands.{CarriesOut, Obeys};
ghost use Rattle.hsp_cli.specs.Printing.{IsHandedOn};

use crate::answer::{
    Answer, Ended, check_answer, locate_answer, plan_answer, print, report_answer, site_answer,
};
use crate::dispatch::{dispatch, open_log};
use crate::failure::Failure;
use crate::files::{FileSource, read_path};
use crate::inputs::{read_inputs, read_named};
use crate::output::Output;
use hsp_cli_orders::{InputFiles, Order, Word, read_command};
use hsp_inputs::Fault;
use hsp_report::ReportKind;
use hsp_runs::Locate;
use std::alloc::Global;

// Carries out `locate` by a hash option and a number of servers.
fn locate_place(
    alloc: Global,
    option: &Word<'_>,
    servers: &Word<'_>,
    handle: &Word<'_>,
) -> Result<Answer, Failure<Fault>>
    ensures { IsAnswered text_reply (λ text.
        text ≡ placed option.now servers.now handle.now) result }
{
    let option = Vec::from_slice(alloc, option.as_bytes())?;
    let servers = Vec::from_slice(alloc, servers.as_bytes())?;
    locate_answer(alloc, &Locate::Place { option, servers }, handle.as_bytes())
}

// Carries out `locate` by the sites of settings.
fn locate_sites<S: FileSource>(
    alloc: Global,
    files: &S,
    settings: &Word<'_>,
    values: &Option<Word<'_>>,
    handle: &Word<'_>,
) -> Result<Answer, Failure<Fault>>
    ensures { AnswersSites (S.disk files.now) settings.now values.now handle.now result }
{
    let settings = read_path(alloc, files, settings)?;
    let values = read_named(alloc, files, values)?;
    locate_answer(
        alloc,
        &Locate::Sites { settings, values },
        handle.as_bytes(),
    )
}

// Carries out `site`.
fn site<S: FileSource>(
    alloc: Global,
    files: &S,
    index: &Option<Word<'_>>,
    file: &Word<'_>,
) -> Result<Answer, Failure<Fault>>
    ensures { AnswersSite (S.disk files.now) index.now file.now result }
{
    let octets = read_path(alloc, files, file)?;
    match index {
        Some(index) => site_answer(alloc, &octets, Some(index.as_bytes())),
        None => site_answer(alloc, &octets, None),
    }
}

// Carries out `plan`.
fn plan<S: FileSource>(
    alloc: Global,
    files: &S,
    named: &InputFiles<'_>,
) -> Result<Answer, Failure<Fault>>
    ensures { AnswersPlan (S.disk files.now) named.now result }
{
    let inputs = read_inputs(alloc, files, named)?;
    plan_answer(alloc, &inputs)
}

// Carries out `check`.
fn check<S: FileSource>(
    alloc: Global,
    files: &S,
    named: &InputFiles<'_>,
    plan: &Word<'_>,
) -> Result<Answer, Failure<Fault>>
    ensures { AnswersCheck (S.disk files.now) named.now plan.now result }
{
    let inputs = read_inputs(alloc, files, named)?;
    let plan = read_path(alloc, files, plan)?;
    check_answer(alloc, &inputs, &plan)
}

// Carries out `report`.
fn report<S: FileSource>(
    alloc: Global,
    files: &S,
    named: &InputFiles<'_>,
    plan: &Word<'_>,
    kind: ReportKind,
) -> Result<Answer, Failure<Fault>>
    ensures { AnswersReport (S.disk files.now) named.now plan.now kind result }
{
    let inputs = read_inputs(alloc, files, named)?;
    let plan = read_path(alloc, files, plan)?;
    report_answer(alloc, &inputs, &plan, kind)
}

// Carries out the order: prints its answer on `out`, or answers a log there, and returns what to end with.
fn carry_out<S: FileSource, O: Output>(
    alloc: Global,
    files: &S,
    order: &Order<'_>,
    out: &mut O,
) -> Ended
    ensures carries_out { CarriesOut (S.disk files.now) O.may_fail order.now (O.contents out.old)
        (O.contents out.new) result }
    ensures handed { IsHandedOn out.old out.new (O.contents out.new) (O.handed out.new) result }
{
    match order {
        Order::LocatePlace {
            option,
            servers,
            handle,
        } => print(out, locate_place(alloc, option, servers, handle)),
        Order::LocateSites {
            settings,
            values,
            handle,
        } => print(out, locate_sites(alloc, files, settings, values, handle)),
        Order::Site { index, file } => print(out, site(alloc, files, index, file)),
        Order::Plan { inputs } => print(out, plan(alloc, files, inputs)),
        Order::Check { inputs, plan } => print(out, check(alloc, files, inputs, plan)),
        Order::Report { inputs, plan, kind } => {
            print(out, report(alloc, files, inputs, plan, *kind))
        }
        Order::Dispatch {
            inputs,
            plan,
            log,
            fronts,
        } => {
            let opened = open_log(alloc, files, inputs, plan, log)?;
            dispatch(alloc, opened, fronts, out)
        }
    }
}

/// Obeys the command that the words give: writes its answer on `out`, and returns what to end with.
pub fn run_command<S: FileSource, O: Output>(
    alloc: Global,
    files: &S,
    words: &[String],
    out: &mut O,
) -> Ended
    ensures obeys { Obeys (S.disk files.now) O.may_fail (map string_bytes words.now)
        (O.contents out.old) (O.contents out.new) result }
    // Nothing that was written waits in a buffer of the output, unless a write failed.
    ensures handed { IsHandedOn out.old out.new (O.contents out.new) (O.handed out.new) result }
{
    let order = read_command(alloc, words)?;
    carry_out(alloc, files, &order, out)
}
