// The fronts that words spell.

ghost use Rattle.std.specs.Prelude.{◌≡◌, ◌≤◌, ◌<◌, IfOk, option_map};
ghost use Rattle.hsp_text.specs.Answers.{Gives};
ghost use Rattle.hsp_text.specs.declared.limits.TheConstants.{MOST_FRONTS};
ghost use Rattle.hsp_price_answers.specs.Words.{front_at, fronts_at, word_or};

use hsp_inputs::{Fault, StreamFault, read_count};
use hsp_text::limits::MOST_FRONTS;
use hsp_text::read_whole;

/// The number of fronts that a word spells, or 1 where there is no word. A word that spells none is
/// `Input(BadFronts)`.
pub(crate) fn read_fronts(word: Option<&[u8]>) -> Result<u32, StreamFault>
    ensures given { Gives (λ fronts. fronts) result
        (word_or (option_map (λ w. w.now) word.entry) 1 fronts_at) }
    ensures some { IfOk result (λ fronts. 1 ≤ fronts) }
{
    let Some(word) = word else {
        return Ok(1);
    };
    match read_count(word, MOST_FRONTS, Fault::BadFronts) {
        Ok(fronts) => Ok(fronts),
        Err(_) => Err(StreamFault::Input(Fault::BadFronts)),
    }
}

/// The number of a front that a word spells, or 0 where there is no word. A word that spells no number below `fronts`
/// is `BadFront`.
pub(crate) fn read_front(word: Option<&[u8]>, fronts: u32) -> Result<u32, StreamFault>
    requires { 1 ≤ fronts }
    ensures given { Gives (λ front. front) result
        (word_or (option_map (λ w. w.now) word.entry) 0 (front_at fronts)) }
    ensures below { IfOk result (λ front. front < fronts) }
{
    let Some(word) = word else {
        return Ok(0);
    };
    let Ok(front) = read_whole(word, u64::from(MOST_FRONTS)) else {
        return Err(StreamFault::BadFront);
    };
    if front < u64::from(fronts) {
        Ok(front as u32)
    } else {
        Err(StreamFault::BadFront)
    }
}
