// A dispatcher by prices, with the lines of servers and the sums of its answers.

ghost use Rattle.std.specs.Prelude.{◌≡◌, ◌≤◌, ◌++◌, IfOk, OnOk, length};
ghost use Rattle.hsp_log.specs.Lines.{lines_of};
ghost use Rattle.hsp_price_answers.specs.Lines.{AreLong, diverted_line, line_by};
ghost use Rattle.hsp_price_answers.specs.PriceAnswers.{TakesByPrices, price_sums};
ghost use Rattle.hsp_price_answers.specs.Sums.{no_sums};
ghost use Rattle.hsp_price_dispatch.specs.Choosing.{LeadsWithin};

use crate::query_dispatcher::QueryDispatcher;
use crate::sums::PriceSums;
use hsp_instance::Instance;
use hsp_log::ServerLines;
use hsp_names::HandleRef;
use hsp_price_dispatch::{PriceAnswer, PriceDispatcher};
use std::alloc::{AllocError, Global};
use std::marker::Model;

// Appends the line of a query that is diverted to a server: `diverted` in the place of `assigned`.
fn push_diverted(out: &mut Vec<u8>, line: &[u8]) -> Result<(), AllocError>
    requires { 8 ≤ length line.now }
    ensures { OnOk result (out.new.items ≡ out.old.items ++ diverted_line line.now) }
{
    out.extend_from_slice(b"diverted")?;
    out.extend_from_slice(&line[8..])
}

// Appends the line of an answer.
fn push_answer(
    out: &mut Vec<u8>,
    lines: &ServerLines,
    answer: PriceAnswer,
) -> Result<(), AllocError>
    requires within { LeadsWithin (length lines.now) answer }
    requires long { AreLong lines.now }
    ensures { OnOk result (out.new.items ≡ out.old.items ++ line_by lines.now answer) }
{
    match answer {
        PriceAnswer::Assigned(arc) => out.extend_from_slice(lines.line(arc.server)),
        PriceAnswer::Diverted(arc) => push_diverted(out, lines.line(arc.server)),
        PriceAnswer::Full => out.extend_from_slice(b"full\n"),
        PriceAnswer::Unknown => out.extend_from_slice(b"unknown\n"),
    }
}

/// A front's dispatcher by prices, with the lines of servers and the sums of its answers.
#[derive(Drop)]
pub(crate) struct PriceAnswers<'a> {
    dispatcher: PriceDispatcher<'a>,
    lines: ServerLines,
    sums: PriceSums,
}

impl<'a> Model for PriceAnswers<'a> {
    ghost use Rattle.std.specs.Prelude.{◌≡◌, length};
    ghost use Rattle.hsp_price_answers.specs.Lines.{AreLong};
    ghost use Rattle.hsp_price_answers.specs.PriceAnswers.{PricesHeld};

    ghost Value = { PricesHeld };

    ghost view = { λ a. record { own = a.dispatcher; lines = a.lines; sums = a.sums } };

    ghost invariant = { λ a. (length a.lines ≡ length a.dispatcher.service.servers)
        × AreLong a.lines };
}

impl<'a> PriceAnswers<'a> {
    /// One that has answered nothing, by a front of the instance's service.
    pub(crate) fn new(
        alloc: Global,
        instance: &Instance,
        dispatcher: PriceDispatcher<'a>,
    ) -> Result<PriceAnswers<'a>, AllocError>
        requires { dispatcher.service.servers ≡ instance.now.servers }
        ensures { IfOk result (λ answers. answers ≡ record {
          own = dispatcher.entry;
          lines = lines_of instance.now;
          sums = no_sums;
        }) }
    {
        let lines = ServerLines::for_instance(alloc, instance)?;
        Ok(PriceAnswers {
            dispatcher,
            lines,
            sums: PriceSums::none(),
        })
    }
}

impl<'a> QueryDispatcher for PriceAnswers<'a> {
    type Sums = PriceSums;

    ghost Takes = { TakesByPrices };

    ghost sums_of = { price_sums };

    fn take_query(
        &mut self,
        alloc: Global,
        region: &[u8],
        handle: HandleRef<'_>,
        line: &mut Vec<u8>,
    ) -> Result<(), AllocError> {
        let answer = self.dispatcher.assign(alloc, region, handle)?;
        self.sums.count(answer);
        push_answer(line, &self.lines, answer)
    }

    fn sums(&self, refused: u64) -> PriceSums {
        self.sums.with_refused(refused)
    }
}
