// The program for logs of any length: one command for each run, from its arguments or, without any, from the first line
// of standard input.
#![tactic(auto)]

mod progress;

use hsp_cli::{Output, last_line, status_at_end, take_words};
use hsp_price_plan::Progress;
use hsp_stream_cli::{Ended, HsplanStream, run_command};
use progress::ProgressLine;
use std::io;
use std::process::ExitCode;
use std::rt::{Env, Files};

// Obeys the command that the words give, and shows how far a plan is.
fn run<R: Env + Files + Input + AllocGlobal, P: Progress + Drop, O: Output>(
    rt: &R,
    progress: P,
    out: &mut O,
) -> Ended {
    let words = take_words(rt)?;
    run_command(rt.alloc(), rt, words.as_slice(), progress, out)
}

fn main(rt: HostRuntime) -> ExitCode {
    let errors = rt.stderr();
    let ended = run(&rt, ProgressLine::new(&errors), &mut io::writer(&rt));
    let line = last_line::<HsplanStream>(rt.alloc(), &ended);
    let status = status_at_end::<HsplanStream, _>(&mut io::writer(&errors), &ended, &line);
    ExitCode::from(status)
}
