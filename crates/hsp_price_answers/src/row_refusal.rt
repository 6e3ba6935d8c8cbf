// Why a row of a log has no answer, and the line that says so.

ghost use Rattle.std.specs.Prelude.{◌≡◌, ◌++◌, OnOk};
ghost use Rattle.hsp_price_answers.specs.Saying.{refusal_words, refused_line};
ghost use Rattle.hsp_price_answers.specs.declared.row_refusal.RowRefusal.TheVariants.{BadHandle};

use hsp_inputs::handle_words;
use hsp_names::HandleFault;
use std::alloc::AllocError;

/// Why a row of a log has no answer.
#[derive(Clone, Copy, Debug, PartialEq, Eq)]
pub(crate) enum RowRefusal {
    /// The row has more than `hsp_talk::LONGEST_ROW` octets.
    TooLong,
    /// The row does not have two fields.
    Fields,
    /// The row's body is not in hexadecimal digits, or is not the body of a resolution request.
    BadBody,
    /// What the row gives as its handle is not a handle.
    BadHandle(HandleFault),
}

// Appends the words of a handle that is refused.
fn push_bad_handle(answer: &mut Vec<u8>, fault: &HandleFault) -> Result<(), AllocError>
    ensures { OnOk result
        (answer.new.items ≡ answer.old.items ++ refusal_words (BadHandle fault.now)) }
{
    answer.extend_from_slice(b"BadHandle ")?;
    answer.extend_from_slice(handle_words(fault))
}

// Appends the words of a refusal.
fn push_words(answer: &mut Vec<u8>, refusal: RowRefusal) -> Result<(), AllocError>
    ensures { OnOk result (answer.new.items ≡ answer.old.items ++ refusal_words refusal) }
{
    match refusal {
        RowRefusal::TooLong => answer.extend_from_slice(b"TooLong"),
        RowRefusal::Fields => answer.extend_from_slice(b"Fields"),
        RowRefusal::BadBody => answer.extend_from_slice(b"BadBody"),
        RowRefusal::BadHandle(fault) => push_bad_handle(answer, &fault),
    }
}

/// Appends the line of a refusal.
pub(crate) fn push_refusal(answer: &mut Vec<u8>, refusal: RowRefusal) -> Result<(), AllocError>
    ensures { OnOk result (answer.new.items ≡ answer.old.items ++ refused_line refusal) }
{
    answer.extend_from_slice(b"refused ")?;
    push_words(answer, refusal)?;
    answer.extend_from_slice(b"\n")
}
