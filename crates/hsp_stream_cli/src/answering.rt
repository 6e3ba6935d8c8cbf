// Answers to the rows of a log by a certificate by prices, on an output.

ghost use Rattle.std.specs.Prelude.{IfOk};
ghost use Rattle.hsp_stream_cli.specs.Commands.{AnswersPriced};
ghost use Rattle.hsp_stream_cli.specs.Printing.{IsHandedOn};
ghost use Rattle.hsp_stream_cli.specs.Talking.{EndsPriced, IsFront};

use crate::files::{Priced, read_prices};
use crate::program::Ended;
use crate::talking::{Talk, talk_over};
use hsp_cli::{Completed, Failure, FileSource, Output};
use hsp_cli_orders::{FrontWords, PriceFiles};
use hsp_price_answers::{FrontChoice, price_answer_run};
use hsp_talk::Peer;
use std::alloc::{AllocError, Global};

/// Who answers as a front by a certificate by prices.
#[derive(Drop)]
pub(crate) struct ByPrices {
    priced: Priced,
    front: FrontChoice,
}

impl Talk for ByPrices {
    ghost Ends = { λ by ended. EndsPriced by.priced by.front ended };

    fn talk<P: Peer>(&self, alloc: Global, peer: &mut P) -> Ended {
        let priced = &self.priced;
        match price_answer_run(alloc, &priced.inputs, &priced.prices, &self.front, peer) {
            Ok(sums) => Ok(Completed {
                status: 0,
                sums: Some(sums),
            }),
            Err(fault) => Err(Failure::Refused(fault)),
        }
    }
}

// The number of fronts, and that of one of them.
fn front_choice(alloc: Global, front: &Option<FrontWords<'_>>) -> Result<FrontChoice, AllocError>
    ensures { IfOk result (IsFront front.now) }
{
    match front {
        Some(words) => Ok(FrontChoice {
            fronts: Some(Vec::from_slice(alloc, words.fronts.as_bytes())?),
            front: Some(Vec::from_slice(alloc, words.front.as_bytes())?),
        }),
        None => Ok(FrontChoice {
            fronts: None,
            front: None,
        }),
    }
}

/// Answers on `out` the rows of a log, by a certificate by prices.
pub(crate) fn answer_priced<S: FileSource, O: Output>(
    alloc: Global,
    files: &S,
    named: &PriceFiles<'_>,
    front: &Option<FrontWords<'_>>,
    out: &mut O,
) -> Ended
    ensures answers { AnswersPriced (S.disk files.now) O.may_fail named.now front.now
        (O.contents out.old) (O.contents out.new) result }
    ensures handed { IsHandedOn (O.contents out.old) (O.handed out.old) (O.contents out.new)
        (O.handed out.new) result }
{
    let priced = read_prices(alloc, files, named)?;
    let log = files.open(&named.service.log)?;
    let front = front_choice(alloc, front)?;
    let by = ByPrices { priced, front };
    talk_over(alloc, &by, log, out)
}
