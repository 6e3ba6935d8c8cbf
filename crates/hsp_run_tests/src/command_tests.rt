use crate::same::is_same;
use hsp_cli_orders::*;
use std::alloc::{AllocError, Global};
use std::process::Abort;

// The words of a line. Running out of memory is met by a second call, here and below: where one growth is
// refused, it answers as with ample memory.
fn words_of(rt: &impl Abort, alloc: Global, line: &[u8]) -> Option<Vec<String>> {
    match split_words(alloc, line) {
        Ok(words) => words,
        Err(AllocError) => split_words(alloc, line).expect(rt, "there is memory"),
    }
}

// The words of a line that is text.
fn held_words(rt: &impl Abort, alloc: Global, line: &[u8]) -> Vec<String> {
    words_of(rt, alloc, line).expect(rt, "there are words")
}

// The order of the words.
fn order_of<'a>(alloc: Global, words: &'a [String]) -> Result<Order<'a>, CommandFault> {
    match read_command(alloc, words) {
        Err(CommandFault::OutOfMemory) => read_command(alloc, words),
        answer => answer,
    }
}

fn or_none<'a>(text: &'a Option<Word<'_>>) -> &'a str {
    match text {
        Some(text) => text.as_str(),
        None => "none",
    }
}

// What the words of a plan or of a dispatch are read as: the values one after the other, with bars between.
fn shown(alloc: Global, order: &Order) -> Option<String> {
    match order {
        Order::Plan { inputs } => shown_inputs(alloc, "plan", inputs, ""),
        Order::Dispatch {
            inputs,
            plan,
            log,
            fronts,
        } => shown_log(alloc, inputs, plan, log, or_none(fronts)),
        _ => None,
    }
}

fn shown_inputs(alloc: Global, name: &str, inputs: &InputFiles<'_>, plan: &str) -> Option<String> {
    let (settings, demand) = (inputs.settings.as_str(), inputs.demand.as_str());
    let (costs, capacity) = (inputs.costs.as_str(), inputs.capacity.as_str());
    let values = or_none(&inputs.values);
    format!(in alloc; "{name}|{settings}|{values}|{demand}|{costs}|{capacity}|{plan}").ok()
}

fn shown_log(
    alloc: Global,
    inputs: &InputFiles<'_>,
    plan: &Word<'_>,
    log: &Word<'_>,
    fronts: &str,
) -> Option<String> {
    let shown = shown_inputs(alloc, "dispatch", inputs, plan.as_str())?;
    let (shown, log) = (shown.as_str(), log.as_str());
    format!(in alloc; "{shown}|{log}|{fronts}").ok()
}

// The order is shown so.
fn is_shown(rt: &impl Abort, alloc: Global, order: &Order<'_>, wanted: &str) {
    let text = match shown(alloc, order) {
        Some(text) => text,
        None => shown(alloc, order).expect(rt, "it is a plan or a dispatch"),
    };
    is_same(rt, text.as_str(), wanted);
}

// The words of the line give the order.
fn gives(rt: &impl Abort, alloc: Global, line: &[u8], wanted: &str) {
    let words = held_words(rt, alloc, line);
    let order = order_of(alloc, &words).expect(rt, "the words are an order");
    is_shown(rt, alloc, &order, wanted);
}

// The fault is displayed so.
fn is_displayed(rt: &impl Abort, alloc: Global, fault: &CommandFault, wanted: &str) {
    let text = match fault.to_string(alloc) {
        Ok(text) => text,
        Err(AllocError) => fault.to_string(alloc).expect(rt, "there is memory"),
    };
    is_same(rt, text.as_str(), wanted);
}

#[test]
fn faults_are_displayed(rt: HostRuntime) {
    is_displayed(&rt, rt.alloc(), &CommandFault::Usage, "usage");
    is_displayed(&rt, rt.alloc(), &CommandFault::OutOfMemory, "out of memory");
}

#[test]
fn words_stand_between_spaces(rt: HostRuntime) {
    let words = held_words(&rt, rt.alloc(), b"a  b");
    assert!(rt; words.len() == 2);
    is_same(&rt, words[0].as_str(), "a");
    is_same(&rt, words[1].as_str(), "b");
}

#[test]
fn a_plan_is_ordered(rt: HostRuntime) {
    gives(
        &rt,
        rt.alloc(),
        b"plan --settings s --demand d --costs c --capacity k",
        "plan|s|none|d|c|k|",
    );
}

#[test]
fn a_dispatch_is_ordered(rt: HostRuntime) {
    gives(
        &rt,
        rt.alloc(),
        b"dispatch --settings s --demand d --costs c --capacity k --plan p --log l",
        "dispatch|s|none|d|c|k|p|l|none",
    );
}
