// The responder that answers the rows of a log.

ghost use Rattle.std.specs.Prelude.{◌≡◌, ◌≢◌, ◌∷◌, [], List, MatchOption, None, OnOk, ℕ};
ghost use Rattle.hsp_price_check.specs.Tally.{capped};
ghost use Rattle.hsp_price_answers.specs.Answering.{GivesLine, TakesRow};
ghost use Rattle.hsp_price_answers.specs.Asking.{IsNoHeader, asked_of};

use crate::asking::{AskedRow, NoHeader, RowAsker};
use crate::query_dispatcher::QueryDispatcher;
use crate::row_refusal::push_refusal;
use hsp_log::Form;
use hsp_talk::{Refusal, Responder};
use std::alloc::{AllocError, Global};
use std::marker::Model;

/// Answers the rows of a log by what answers their queries.
#[derive(Drop)]
pub(crate) struct Answerer<D> {
    alloc: Global,
    asker: RowAsker,
    form: Option<Form>,
    dispatcher: D,
    refused: u64,
}

impl<D> Model for Answerer<D> {
    ghost use Rattle.hsp_price_answers.specs.Answering.{Answering};

    ghost Value = { Answering D };

    ghost view = { λ a. record { form = a.form; dispatcher = a.dispatcher; refused = a.refused } };
}

// Answers what a row asks, and counts the row where it is refused.
fn give<D: QueryDispatcher>(
    alloc: Global,
    dispatcher: &mut D,
    refused: &mut u64,
    asked: AskedRow<'_>,
    answer: &mut Vec<u8>,
) -> Result<(), AllocError>
    requires { answer.old.items ≡ [] }
    ensures { OnOk result (GivesLine D.Takes dispatcher.old refused.old (asked_of asked.entry)
        dispatcher.new refused.new answer.new.items) }
{
    match asked {
        AskedRow::Nothing => Ok(()),
        AskedRow::Query(region, handle) => dispatcher.take_query(alloc, region, handle, answer),
        AskedRow::Refused(refusal) => {
            *refused = refused.saturating_add(1);
            push_refusal(answer, refusal)
        }
    }
}

impl<D: QueryDispatcher> Answerer<D> {
    /// A responder that has taken no row.
    pub(crate) fn new(alloc: Global, dispatcher: D) -> Answerer<D>
        ensures { result
            ≡ record { form = None; dispatcher = dispatcher; refused = 0 } }
    {
        Answerer {
            alloc,
            asker: RowAsker::new(alloc),
            form: None,
            dispatcher,
            refused: 0,
        }
    }

    /// The sums of all answers, or None where no header was taken.
    pub(crate) fn ending(&self) -> Option<D::Sums>
        ensures { MatchOption result (self.now.form ≡ None)
            (λ sums. (self.now.form ≢ None)
            × (sums ≡ D.sums_of self.now.dispatcher self.now.refused)) }
    {
        match self.form {
            Some(_) => Some(self.dispatcher.sums(self.refused)),
            None => None,
        }
    }
}

impl<D: QueryDispatcher> Responder for Answerer<D> {
    type Fault = NoHeader;

    ghost Takes = { TakesRow D.Takes };

    ghost Refuses = { λ responder row next fault. IsNoHeader responder.form row };

    fn take(&mut self, row: &[u8], answer: &mut Vec<u8>) -> Result<(), Refusal<NoHeader>> {
        let Some(form) = self.form else {
            match self.asker.header(self.alloc, row) {
                Ok(form) => self.form = form,
                Err(refusal) => return Err(refusal),
            }
            return Ok(());
        };
        let Ok(asked) = self.asker.ask(self.alloc, form, row) else {
            return Err(Refusal::OutOfMemory);
        };
        match give(
            self.alloc,
            &mut self.dispatcher,
            &mut self.refused,
            asked,
            answer,
        ) {
            Ok(()) => Ok(()),
            Err(_) => Err(Refusal::OutOfMemory),
        }
    }
}
