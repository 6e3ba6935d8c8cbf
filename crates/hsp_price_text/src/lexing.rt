// What a line says.

ghost use Rattle.std.specs.Prelude.{◌≡◌, IfOk, codes, option_map};
ghost use Rattle.hsp_price_text.specs.Lines.{class_in, class_left, numbers_behind, numbers_in, numbers_left};
ghost use Rattle.hsp_price_text.specs.Lines.{only_one, only_two, turns_of};

use crate::class::Class;
use crate::ranges::LAST_SERVER;
use hsp_cert::lexing::{cut_at_space, number_of};
use std::alloc::{AllocError, Global};

// The numbers of a text with one space between them, or None where a part is no number.
fn numbers_of(alloc: Global, text: &[u8]) -> Result<Option<Vec<u64>>, AllocError>
    ensures { IfOk result (λ numbers. option_map (λ ns. ns.items) numbers ≡ numbers_in text.now) }
{
    let mut numbers = Vec::new(alloc);
    let mut left = text;
    'parts: loop {
        let (part, more) = cut_at_space(left);
        let Some(number) = number_of(part) else {
            return Ok(None);
        };
        numbers.push(number)?;
        match more {
            None => break,
            Some(more) => left = more,
        }
    }
    Ok(Some(numbers))
}

// The numbers of a text that may not be there.
fn numbers_left(alloc: Global, left: Option<&[u8]>) -> Result<Option<Vec<u64>>, AllocError>
    ensures { IfOk result (λ numbers. option_map (λ ns. ns.items) numbers
        ≡ numbers_left (option_map (λ l. l.now) left.entry)) }
{
    match left {
        None => Ok(None),
        Some(left) => numbers_of(alloc, left),
    }
}

// The numbers behind a word.
fn numbers_behind(alloc: Global, word: &[u8], line: &[u8]) -> Result<Option<Vec<u64>>, AllocError>
    ensures { IfOk result (λ numbers.
        option_map (λ ns. ns.items) numbers ≡ numbers_behind word.now line.now) }
{
    let (first, left) = cut_at_space(line);
    if first != word {
        return Ok(None);
    }
    numbers_left(alloc, left)
}

/// The number behind a word, where there is one only.
pub(crate) fn one_behind(alloc: Global, word: &[u8], line: &[u8]) -> Result<Option<u64>, AllocError>
    ensures { IfOk result (λ said. said ≡ only_one (numbers_behind word.now line.now)) }
{
    match numbers_behind(alloc, word, line)? {
        None => Ok(None),
        Some(numbers) => match numbers.as_slice() {
            [only] => Ok(Some(*only)),
            _ => Ok(None),
        },
    }
}

/// The two numbers behind a word, where there are two only.
pub(crate) fn two_behind(
    alloc: Global,
    word: &[u8],
    line: &[u8],
) -> Result<Option<(u64, u64)>, AllocError>
    ensures { IfOk result (λ said. said ≡ only_two (numbers_behind word.now line.now)) }
{
    match numbers_behind(alloc, word, line)? {
        None => Ok(None),
        Some(numbers) => match numbers.as_slice() {
            [first, second] => Ok(Some((*first, *second))),
            _ => Ok(None),
        },
    }
}

// Servers and amounts by turns, where each server is within its range.
fn turns_of(alloc: Global, numbers: &[u64]) -> Result<Option<(Vec<u32>, Vec<u64>)>, AllocError>
    ensures { IfOk result
        (λ turns. option_map (λ t. (t.0.items, t.1.items)) turns ≡ turns_of numbers.now) }
{
    let mut servers = Vec::new(alloc);
    let mut amounts = Vec::new(alloc);
    let mut left = numbers;
    'turns: loop {
        match left {
            [] => break,
            [server, amount, more @ ..] => {
                if *server > u64::from(LAST_SERVER) {
                    return Ok(None);
                }
                servers.push(*server as u32)?;
                amounts.push(*amount)?;
                left = more;
            }
            _ => return Ok(None),
        }
    }
    Ok(Some((servers, amounts)))
}

// The class of what stands behind its word.
fn class_left(alloc: Global, left: Option<&[u8]>) -> Result<Option<Class>, AllocError>
    ensures { IfOk result (λ said. said ≡ class_left (option_map (λ l. l.now) left.entry)) }
{
    let Some(left) = left else {
        return Ok(None);
    };
    let (region, more) = cut_at_space(left);
    let Some(numbers) = numbers_left(alloc, more)? else {
        return Ok(None);
    };
    let Some((servers, amounts)) = turns_of(alloc, &numbers)? else {
        return Ok(None);
    };
    Ok(Some(Class {
        region: Vec::from_slice(alloc, region)?,
        servers,
        amounts,
    }))
}

/// The class that a line says.
pub(crate) fn class_in(alloc: Global, line: &[u8]) -> Result<Option<Class>, AllocError>
    ensures { IfOk result (λ said. said ≡ class_in line.now) }
{
    let (first, left) = cut_at_space(line);
    if first != b"class".as_slice() {
        return Ok(None);
    }
    class_left(alloc, left)
}
