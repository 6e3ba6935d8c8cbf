// Words of a line.

ghost use Rattle.std.specs.Prelude.{◌≡◌, IfOk, IfSome, IfNone, map, string_bytes, IsUtf8};
ghost use Rattle.hsp_cli_orders.specs.Words.{words_of};

use std::alloc::{AllocError, Global};
use std::str;

/// The words between single spaces, without empty ones, or None where the octets are not UTF-8.
///
/// # Errors
///
/// An `AllocError` where memory runs out.
pub fn split_words(alloc: Global, line: &[u8]) -> Result<Option<Vec<String>>, AllocError>
    ensures words { IfOk result
        (λ found. IfSome found (λ words. map string_bytes words.items ≡ words_of line.now)) }
    ensures text { IfOk result (λ found. IfSome found (λ words. IsUtf8 line.now)) }
    ensures none { IfOk result (λ found. IfNone found (IsUtf8 line.now → ⊥)) }
{
    let Ok(text) = str::from_utf8(line) else {
        return Ok(None);
    };
    Ok(Some(words_in(alloc, text)?))
}

// The words of a text.
fn words_in(alloc: Global, text: &str) -> Result<Vec<String>, AllocError>
    ensures { IfOk result (λ words. map string_bytes words.items ≡ words_of text.now) }
{
    let mut words = Vec::new(alloc);
    for word in text.split(' ') {
        if !word.is_empty() {
            words.push(String::from_str(alloc, word)?)?;
        }
    }
    Ok(words)
}
