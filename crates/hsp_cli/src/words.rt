// The words of the command.

ghost use Rattle.std.specs.Prelude.{◌≡◌, drop, map, option_map, string_bytes};
ghost use Rattle.hsp_cli.specs.Words.{AreOfLine, AreWords, seen};

use hsp_cli_orders::{CommandFault, split_words};
use hsp_text::first_line;
use std::alloc::Global;
use std::rt::Env;
use std::{env, io};

// The words behind the first, which is the program's name.
fn behind_name(words: Vec<String>) -> Vec<String>
    ensures { result.items ≡ drop 1 words.items }
{
    let mut words = words;
    if !words.is_empty() {
        words.remove(0);
    }
    words
}

// The arguments.
fn arguments<R: Env + AllocGlobal>(rt: &R) -> Result<Vec<String>, CommandFault> {
    let all = match env::args(rt) {
        Ok(all) => all,
        Err(error) if error.kind() == io::ErrorKind::OutOfMemory => {
            return Err(CommandFault::OutOfMemory);
        }
        Err(_) => return Err(CommandFault::Usage),
    };
    let words: Vec<String> = all.collect(rt.alloc())?;
    Ok(behind_name(words))
}

// The words of the line that was found.
fn words_of_line(alloc: Global, line: Option<Vec<u8>>) -> Result<Vec<String>, CommandFault>
    ensures { AreOfLine (option_map (λ line. line.items) line)
        (seen (λ words. map string_bytes words.items) result) }
{
    let Some(line) = line else {
        return Err(CommandFault::Usage);
    };
    match split_words(alloc, line.as_slice())? {
        Some(words) => Ok(words),
        None => Err(CommandFault::Usage),
    }
}

// The arguments or, without any, the words of the line that was found.
fn words_from(
    alloc: Global,
    arguments: Vec<String>,
    line: Option<Vec<u8>>,
) -> Result<Vec<String>, CommandFault>
    ensures { AreWords (map string_bytes arguments.items) (option_map (λ line. line.items) line)
        (seen (λ words. map string_bytes words.items) result) }
{
    if arguments.is_empty() {
        words_of_line(alloc, line)
    } else {
        Ok(arguments)
    }
}

/// The words of the command: the arguments or, without any, those of the first line of standard input. Standard input
/// isn't read otherwise.
///
/// # Errors
///
/// `Usage` where an argument is no text, or the first line is absent or no words; `OutOfMemory` where memory runs out.
pub fn take_words<R: Env + Input + AllocGlobal>(rt: &R) -> Result<Vec<String>, CommandFault> {
    let arguments = arguments(rt)?;
    let line = if arguments.is_empty() {
        first_line(rt.alloc(), rt.reader())?
    } else {
        None
    };
    words_from(rt.alloc(), arguments, line)
}
