//! `hdv`: shows a run of `hdt`.
#![tactic(auto)]

use clap::Error;
use clap::error::ErrorKind;
use hd_io::{StdSink, StdSource};
use hd_view::{look, read_request};
use std::alloc::AllocError;
use std::io::IsTerminal;
use std::process::ExitCode;
use std::rt::Env;
use std::{env, io};

// The status where memory ran out.
const NO_MEMORY: u8 = 6;

// The words of the command line, the program's name first; none where one of them is not text.
fn words(rt: &(impl Env + AllocGlobal)) -> Result<Vec<String>, AllocError> {
    match env::args(rt) {
        Ok(args) => args.collect(rt.alloc()),
        Err(error) if error.kind() == io::ErrorKind::OutOfMemory => Err(AllocError),
        Err(_) => Ok(Vec::new(rt.alloc())),
    }
}

// The status of words that ask for nothing: help and the version are none that went wrong.
fn status_of(error: &Error) -> u8 {
    match error.kind() {
        ErrorKind::OutOfMemory => NO_MEMORY,
        _ => error.exit_code() as u8,
    }
}

fn main(rt: HostRuntime) -> ExitCode {
    let Ok(words) = words(&rt) else {
        return ExitCode::from(NO_MEMORY);
    };
    let request = match read_request(rt.alloc(), &words) {
        Ok(request) => request,
        Err(error) => {
            let _ = error.print(&rt);
            return ExitCode::from(status_of(&error));
        }
    };
    let is_prompting = rt.stdin().is_terminal();
    let mut source = StdSource::over(rt.stdin());
    let mut out = StdSink::over(rt.stdout());
    let mut errors = StdSink::over(rt.stderr());
    ExitCode::from(look(
        rt.alloc(),
        &request,
        &mut source,
        &mut out,
        &mut errors,
        is_prompting,
    ))
}
