// The front that words spell.

ghost use Rattle.std.specs.Prelude.{◌≡◌, ◌≤◌, ◌<◌, IfOk};
ghost use Rattle.hsp_text.specs.Answers.{Gives};
ghost use Rattle.hsp_price_answers.specs.FrontWords.{front_among, front_spelled};

use crate::fronts::{read_front, read_fronts};
use hsp_inputs::StreamFault;
use hsp_log::Front;

/// The words of a front: how many there are, and the number of one of them. Absent words mean 1 and 0.
#[derive(Drop)]
pub struct FrontChoice {
    pub fronts: Option<Vec<u8>>,
    pub front: Option<Vec<u8>>,
}

// The front of so many.
fn front_among(words: &FrontChoice, fronts: u32) -> Result<Front, StreamFault>
    requires { 1 ≤ fronts }
    ensures given { Gives (λ front. front) result (front_among words.now fronts) }
    ensures below { IfOk result (λ front. front.number < front.fronts) }
{
    match read_front(words.front.as_deref(), fronts) {
        Ok(number) => Ok(Front { fronts, number }),
        Err(fault) => Err(fault),
    }
}

/// The front that the words spell. Faults in this order: `Input(BadFronts)`, `BadFront`.
pub(crate) fn front_spelled(words: &FrontChoice) -> Result<Front, StreamFault>
    ensures given { Gives (λ front. front) result (front_spelled words.now) }
    ensures below { IfOk result (λ front. front.number < front.fronts) }
{
    match read_fronts(words.fronts.as_deref()) {
        Ok(fronts) => front_among(words, fronts),
        Err(fault) => Err(fault),
    }
}
