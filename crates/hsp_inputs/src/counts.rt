// Whole numbers from 1 on, in words.

ghost use Rattle.std.specs.Prelude.{◌≤◌, IfOk};
ghost use Rattle.hsp_text.specs.Answers.{Gives};
ghost use Rattle.hsp_inputs.specs.Counts.{count_at};

use crate::fault::Fault;
use hsp_text::read_whole;

/// The number from 1 to `most` that a word spells, or the fault where it spells no such number.
///
/// # Errors
///
/// The fault that is given, where the word spells no such number.
pub fn read_count(word: &[u8], most: u32, fault: Fault) -> Result<u32, Fault>
    ensures count { Gives (λ count. count) result (count_at fault most word.now) }
    ensures some { IfOk result (λ count. 1 ≤ count) }
    ensures most { IfOk result (λ count. count ≤ most) }
{
    match read_whole(word, u64::from(most)) {
        Ok(0) | Err(_) => Err(fault),
        Ok(count) => Ok(count as u32),
    }
}
