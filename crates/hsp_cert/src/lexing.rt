// What a line says: words and numbers with one space between them.

ghost use Rattle.std.specs.Prelude.{◌≡◌, option_map};
ghost use Rattle.hsp_cert.specs.Lexing.{cut, word_among, word_in, number_in, after_first, after_second, item_in};

use crate::item::{Item, WORDS, Word, spelled};
use hsp_text::read_whole;

/// The octets before the first space, and those after it: all the octets and None, where they have no space.
pub fn cut_at_space(text: &[u8]) -> (&[u8], Option<&[u8]>)
    ensures { cut text.now ≡ (result.0.now, option_map (λ r. r.now) result.1) }
{
    for (place, octet) in text.iter().enumerate() {
        if *octet == b' ' {
            return (&text[..place], Some(&text[place + 1..]));
        }
    }
    (text, None)
}

// The word among some that the octets spell.
fn word_among(words: &[Word], octets: &[u8]) -> Option<Word>
    ensures { result ≡ word_among words.now octets.now }
{
    for word in words {
        if octets == spelled(*word) {
            return Some(*word);
        }
    }
    None
}

// The word of a certificate that octets spell.
fn word_of(octets: &[u8]) -> Option<Word>
    ensures { result ≡ word_in octets.now }
{
    word_among(&WORDS, octets)
}

/// The number that octets spell, or None where they spell no whole number below 2^64: digits, with no zero before
/// others.
pub fn number_of(octets: &[u8]) -> Option<u64>
    ensures { result ≡ number_in octets.now }
{
    match read_whole(octets, u64::MAX) {
        Ok(number) => Some(number),
        Err(_) => None,
    }
}

// The item of a word, two numbers and what the rest of the line says.
fn with_second(word: Word, first: u64, text: &[u8]) -> Option<Item>
    ensures { result ≡ after_second word first (number_in (cut text.now).0) (cut text.now).1 }
{
    let (octets, rest) = cut_at_space(text);
    let second = number_of(octets)?;
    match rest {
        None => Some(Item::Two(word, first, second)),
        Some(rest) => {
            let third = number_of(rest)?;
            Some(Item::Three(word, first, second, third))
        }
    }
}

// The item of a word and what the rest of the line says.
fn with_first(word: Word, text: &[u8]) -> Option<Item>
    ensures { result ≡ after_first word (number_in (cut text.now).0) (cut text.now).1 }
{
    let (octets, rest) = cut_at_space(text);
    let first = number_of(octets)?;
    match rest {
        None => Some(Item::One(word, first)),
        Some(rest) => with_second(word, first, rest),
    }
}

/// What the line says, or None where no line of a certificate says it.
pub(crate) fn item_of(line: &[u8]) -> Option<Item>
    ensures { result ≡ item_in line.now }
{
    let (octets, rest) = cut_at_space(line);
    let word = word_of(octets)?;
    match rest {
        None => Some(Item::Alone(word)),
        Some(rest) => with_first(word, rest),
    }
}
