// The program: one command for each run, from its arguments or, without any, from the first line of standard input.
#![tactic(auto)]

use hsp_cli::{Ended, Failure, Hsplan, Output, last_line, run_command, status_at_end, take_words};
use std::io::{self, BufWriter};
use std::process::ExitCode;
use std::rt::{Env, Files};

// How many octets of answers go out together.
const PIECE: usize = 65_536;

// Obeys the command that the words give.
fn run<R: Env + Files + Input + AllocGlobal, O: Output>(rt: &R, out: &mut O) -> Ended {
    let words = take_words(rt)?;
    run_command(rt.alloc(), rt, words.as_slice(), out)
}

fn main(rt: HostRuntime) -> ExitCode {
    let ended = match BufWriter::with_capacity(rt.alloc(), PIECE, io::writer(&rt)) {
        Ok(mut out) => {
            let ended = run(&rt, &mut out);
            // What a failed write left isn't tried again.
            let _left = out.into_parts();
            ended
        }
        Err(_) => Err(Failure::Memory),
    };
    let line = last_line::<Hsplan>(rt.alloc(), &ended);
    let errors = rt.stderr();
    let status = status_at_end::<Hsplan, _>(&mut io::writer(&errors), &ended, &line);
    ExitCode::from(status)
}
