// What the runs answer, as the program prints it.

ghost use Rattle.std.specs.Prelude.{◌≡◌, option_map};
ghost use Rattle.hsp_runs.specs.Locate.{IsLocated};
ghost use Rattle.hsp_runs.specs.Report.{IsReported};
ghost use Rattle.hsp_runs.specs.SiteText.{IsSiteRun};
ghost use Rattle.hsp_cli.specs.Answers.{IsAnswered, IsShownPlan, IsShownVerdict, fields_reply, plan_status, plan_reply};
ghost use Rattle.hsp_cli.specs.Answers.{text_reply, verdict_reply};
ghost use Rattle.hsp_cli.specs.Printing.{IsHandedOn, Prints};

use crate::failure::Failure;
use crate::output::Output;
use hsp_dispatch::LogSums;
use hsp_inputs::{Fault, Inputs};
use hsp_report::ReportKind;
use hsp_runs::{
    Locate, check_run, locate_run, plan_run, report_run, site_run, verdict_line, verdict_status,
};
use std::alloc::Global;

/// A text for standard output, and the status to end with after it.
#[derive(Drop)]
pub struct Answer {
    pub text: Vec<u8>,
    pub status: u8,
}

/// What a command ends with that was carried out: a status and, where it answered a log, the log's sums. `S` has the
/// sums of a program's runs.
#[derive(Drop)]
pub struct Completed<S> {
    pub status: u8,
    pub sums: Option<S>,
}

/// How a command of `hsplan` ends.
pub type Ended = Result<Completed<LogSums>, Failure<Fault>>;

/// Where the handle is served.
///
/// # Errors
///
/// Those of [`locate_run`], each as a [`Failure`].
pub fn locate_answer(
    alloc: Global,
    locate: &Locate,
    handle: &[u8],
) -> Result<Answer, Failure<Fault>>
    ensures { IsAnswered text_reply (IsLocated locate.now handle.now) result }
{
    let text = locate_run(alloc, locate, handle)?;
    Ok(Answer { text, status: 0 })
}

/// The fields of a site record or, with an index, of the record in the value with that index.
///
/// # Errors
///
/// Those of [`site_run`], each as a [`Failure`].
pub fn site_answer(
    alloc: Global,
    octets: &[u8],
    index: Option<&[u8]>,
) -> Result<Answer, Failure<Fault>>
    ensures { IsAnswered fields_reply
        (IsSiteRun octets.now (option_map (λ digits. digits.now) index.entry)) result }
{
    let text = site_run(alloc, octets, index)?;
    Ok(Answer { text, status: 0 })
}

// The status after the text of a plan, or of a shortage.
fn plan_status(is_short: bool) -> u8
    ensures { result ≡ plan_status is_short }
{
    if is_short { 3 } else { 0 }
}

/// The text of a plan, or of a shortage with status 3.
///
/// # Errors
///
/// Those of [`plan_run`], each as a [`Failure`].
pub fn plan_answer(alloc: Global, inputs: &Inputs) -> Result<Answer, Failure<Fault>>
    ensures { IsAnswered plan_reply (IsShownPlan inputs.now) result }
{
    let plan = plan_run(alloc, inputs)?;
    let status = plan_status(plan.is_short());
    Ok(Answer {
        text: plan.into_bytes(),
        status,
    })
}

/// The line of a verdict. A No has status 3.
///
/// # Errors
///
/// Those of [`check_run`], each as a [`Failure`].
pub fn check_answer(alloc: Global, inputs: &Inputs, plan: &[u8]) -> Result<Answer, Failure<Fault>>
    ensures { IsAnswered verdict_reply (IsShownVerdict inputs.now plan.now) result }
{
    let verdict = check_run(alloc, inputs, plan)?;
    Ok(Answer {
        text: verdict_line(alloc, &verdict)?,
        status: verdict_status(&verdict),
    })
}

/// The report of a certificate.
///
/// # Errors
///
/// Those of [`report_run`], each as a [`Failure`].
pub fn report_answer(
    alloc: Global,
    inputs: &Inputs,
    plan: &[u8],
    kind: ReportKind,
) -> Result<Answer, Failure<Fault>>
    ensures { IsAnswered text_reply (IsReported inputs.now plan.now kind) result }
{
    let text = report_run(alloc, inputs, plan, kind)?;
    Ok(Answer { text, status: 0 })
}

/// Writes the text of an answer, hands it on, and returns its status.
pub fn print<O: Output>(out: &mut O, answered: Result<Answer, Failure<Fault>>) -> Ended
    ensures prints { Prints O.may_fail answered (O.contents out.old) (O.contents out.new) result }
    ensures handed { IsHandedOn out.old out.new (O.contents out.new) (O.handed out.new) result }
{
    let answer = answered?;
    match out.put(answer.text.as_slice()) {
        Ok(()) => Ok(Completed {
            status: answer.status,
            sums: None,
        }),
        Err(_) => Err(Failure::Write),
    }
}
