// The run that answers the rows of a log by a front of a certificate by prices.

ghost use Rattle.std.specs.Prelude.{◌≡◌, ◌⊎◌, ◌<◌, IfErr, Ok};
ghost use Rattle.hsp_price_check.specs.Classes.{service_of};
ghost use Rattle.hsp_price_answers.specs.AnswerRun.{run_of};
ghost use Rattle.hsp_price_answers.specs.TalkFaults.{IsBeforeLog};
ghost use Rattle.hsp_inputs.specs.Stopping.{IsFailedWrite, MayStopBy};
ghost use Rattle.hsp_talk.specs.Known.{IsHandedOn};
ghost use Rattle.hsp_price_answers.specs.PriceAnswerRun.{AnswersClaim, AnswersFront, AnswersPlan, AnswersText};
ghost use Rattle.hsp_price_answers.specs.PriceAnswerRun.{IsPriceAnswered, fault_of_start};
ghost use Rattle.hsp_price_answers.specs.PricesShown.{AnswersAlways, AnswersAlwaysAt, ShowsPrices, ShowsPricesBy};

use crate::answerer::Answerer;
use crate::dispatcher::PriceAnswers;
use crate::front_words::{FrontChoice, front_spelled};
use crate::speaking::answer_rows;
use crate::sums::PriceSums;
use hsp_inputs::{Fault, Inputs, StreamFault, certificate_in, costs_in, instance_in};
use hsp_instance::Instance;
use hsp_log::Front;
use hsp_price_dispatch::{PriceDispatcher, StartFault};
use hsp_price_text::{PriceCertificate, PricedPlan};
use hsp_prices::PriceReason;
use hsp_tables::Costs;
use hsp_talk::Peer;
use std::alloc::Global;

// An instance and the costs of its service.
#[derive(Clone, Copy)]
struct ServiceRef<'a> {
    instance: &'a Instance,
    costs: &'a Costs,
}

// The fault of a dispatcher that can't start.
fn fault_of_start(fault: StartFault) -> StreamFault
    ensures { result ≡ fault_of_start fault }
{
    match fault {
        StartFault::Shape => StreamFault::Refused(PriceReason::Shape),
        StartFault::NoSuchServer => StreamFault::Refused(PriceReason::NoSuchServer),
        StartFault::Load => StreamFault::Refused(PriceReason::Load),
        StartFault::OutOfMemory => StreamFault::OutOfMemory,
    }
}

// The log, answered by a front of a plan.
fn answer_plan<P: Peer>(
    alloc: Global,
    service: ServiceRef<'_>,
    plan: &PricedPlan,
    front: Front,
    peer: &mut P,
) -> Result<PriceSums, StreamFault>
    requires { front.number < front.fronts }
    ensures answered { AnswersPlan front service.entry.instance.now
        (service_of service.entry.costs.now service.entry.instance.now) plan.now
        (run_of (P.known peer.old) (P.known peer.new) result) }
    ensures untouched { IfErr result (λ e. IsBeforeLog e → peer.new ≡ peer.old) }
    ensures handed { IsHandedOn (P.known peer.old) (P.known peer.new) ⊎ IsFailedWrite result }
    ensures may_stop { IfErr result (MayStopBy (P.may_read_fail peer.old) P.may_send_fail
        (P.known peer.old) (P.known peer.new)) }
{
    let begun = PriceDispatcher::new(alloc, service.instance, service.costs, plan, front);
    let dispatcher = match begun {
        Ok(dispatcher) => dispatcher,
        Err(fault) => return Err(fault_of_start(fault)),
    };
    let answers = PriceAnswers::new(alloc, service.instance, dispatcher)?;
    let mut responder = Answerer::new(alloc, answers);
    answer_rows(alloc, &mut responder, peer)
}

// The same by a certificate, if that is a plan.
fn answer_claim<P: Peer>(
    alloc: Global,
    service: ServiceRef<'_>,
    certificate: &PriceCertificate,
    front: Front,
    peer: &mut P,
) -> Result<PriceSums, StreamFault>
    requires { front.number < front.fronts }
    ensures answered { AnswersClaim front service.entry.instance.now
        (service_of service.entry.costs.now service.entry.instance.now) certificate.now
        (run_of (P.known peer.old) (P.known peer.new) result) }
    ensures untouched { IfErr result (λ e. IsBeforeLog e → peer.new ≡ peer.old) }
    ensures handed { IsHandedOn (P.known peer.old) (P.known peer.new) ⊎ IsFailedWrite result }
    ensures may_stop { IfErr result (MayStopBy (P.may_read_fail peer.old) P.may_send_fail
        (P.known peer.old) (P.known peer.new)) }
{
    match certificate {
        PriceCertificate::Plan(plan) => answer_plan(alloc, service, plan, front, peer),
        PriceCertificate::Shortage(_) => Err(StreamFault::Input(Fault::WrongKind)),
    }
}

// The same by the octets of a certificate.
fn answer_text<P: Peer>(
    alloc: Global,
    service: ServiceRef<'_>,
    prices: &[u8],
    front: Front,
    peer: &mut P,
) -> Result<PriceSums, StreamFault>
    requires { front.number < front.fronts }
    ensures answered { AnswersText front service.entry.instance.now
        (service_of service.entry.costs.now service.entry.instance.now) prices.now
        (run_of (P.known peer.old) (P.known peer.new) result) }
    ensures untouched { IfErr result (λ e. IsBeforeLog e → peer.new ≡ peer.old) }
    ensures handed { IsHandedOn (P.known peer.old) (P.known peer.new) ⊎ IsFailedWrite result }
    ensures may_stop { IfErr result (MayStopBy (P.may_read_fail peer.old) P.may_send_fail
        (P.known peer.old) (P.known peer.new)) }
{
    match certificate_in(alloc, prices) {
        Ok(certificate) => answer_claim(alloc, service, &certificate, front, peer),
        Err(fault) => Err(StreamFault::from(fault)),
    }
}

// The same by the inputs. Their costs are read once more, so that only memory can run out.
fn answer_inputs<P: Peer>(
    alloc: Global,
    inputs: &Inputs,
    prices: &[u8],
    front: Front,
    peer: &mut P,
) -> Result<PriceSums, StreamFault>
    requires { front.number < front.fronts }
    ensures answered { AnswersFront inputs.now prices.now
        (run_of (P.known peer.old) (P.known peer.new) result) (Ok front) }
    ensures shows { ShowsPricesBy front inputs.now prices.now
        (run_of (P.known peer.old) (P.known peer.new) result) }
    ensures always { AnswersAlways inputs.now prices.now result }
    ensures untouched { IfErr result (λ e. IsBeforeLog e → peer.new ≡ peer.old) }
    ensures handed { IsHandedOn (P.known peer.old) (P.known peer.new) ⊎ IsFailedWrite result }
    ensures may_stop { IfErr result (MayStopBy (P.may_read_fail peer.old) P.may_send_fail
        (P.known peer.old) (P.known peer.new)) }
{
    let instance = match instance_in(alloc, inputs) {
        Ok(instance) => instance,
        Err(fault) => return Err(StreamFault::from(fault)),
    };
    match costs_in(alloc, &inputs.costs, inputs.limits()) {
        Ok(costs) => {
            let service = ServiceRef {
                instance: &instance,
                costs: &costs,
            };
            answer_text(alloc, service, prices, front, peer)
        }
        Err(_) => Err(StreamFault::OutOfMemory),
    }
}

/// Answers the rows of a log that a peer sends, by a front of the plan by prices that the octets of `prices` spell,
/// until no more rows come. Every answer is sent before the next read, which may wait. The inputs are those of a
/// service: they have no table of demand.
///
/// The first row that isn't blank is the header, `region,handle` or `region,body`. A byte order mark before it is
/// passed over. Each later row that isn't blank is answered by one line, whatever handle it asks for:
/// `assigned SITE PLACE SERVER_ID` where the query pays least, `diverted SITE PLACE SERVER_ID` where it goes elsewhere,
/// `full` where no room is left, and `unknown` where its region has no cost. A faulty row is answered `refused` and its
/// fault, and the talk goes on. The sums stop at 2^64 - 1.
///
/// # Errors
///
/// In this order: `Input(BadFronts)`, `BadFront`; `Input` with `Settings`, `Values`, `Demand`, `Costs`, `Capacity`,
/// `Build` or `Cert`, or `WrongKind` for a shortage; `Refused` with `Shape`, `NoSuchServer` or `Load` for a plan that
/// doesn't fit; all with nothing read or sent. Then `Log` with `Header`, `ReadFailed` or `WriteFailed`, when the rows
/// before it were answered. A run stops anywhere if memory runs out.
pub fn price_answer_run<P: Peer>(
    alloc: Global,
    inputs: &Inputs,
    prices: &[u8],
    front: &FrontChoice,
    peer: &mut P,
) -> Result<PriceSums, StreamFault>
    ensures answered { IsPriceAnswered front.now inputs.now prices.now
        (run_of (P.known peer.old) (P.known peer.new) result) }
    // The answers, also those before a fault, are by a front of a plan that fits the service. Whatever is asked, no
    // server gets more than it takes, and no host.
    ensures shows { ShowsPrices front.now inputs.now prices.now
        (run_of (P.known peer.old) (P.known peer.new) result) }
    // By every plan that fits the log is answered, up to a fault of its own at most, unless memory runs out.
    ensures always { AnswersAlwaysAt front.now inputs.now prices.now result }
    // Where the fault comes before the log, the peer is as it was, also one of which nothing is known.
    ensures untouched { IfErr result (λ e. IsBeforeLog e → peer.new ≡ peer.old) }
    // No octet of an answer waits in a buffer of the peer, unless a write failed.
    ensures handed { IsHandedOn (P.known peer.old) (P.known peer.new) ⊎ IsFailedWrite result }
    // A failure is reported only of what may fail.
    ensures may_stop { IfErr result (MayStopBy (P.may_read_fail peer.old) P.may_send_fail
        (P.known peer.old) (P.known peer.new)) }
{
    match front_spelled(front) {
        Ok(front) => answer_inputs(alloc, inputs, prices, front, peer),
        Err(fault) => Err(fault),
    }
}
