//! `hdt`: runs a script on the handle table.
#![tactic(auto)]

use hd_io::{NoPace, StdSink, StdSource};
use hd_run::top;
use std::alloc::{AllocError, Global};
use std::env;
use std::io::ErrorKind;
use std::process::ExitCode;
use std::rt::Env;

// The status of a call whose words could not be collected because memory ran out. Nothing is
// written then.
const NO_MEMORY: u8 = 6;

// The words of the command line, the program's name first; none where one of them is not text.
fn words(rt: &(impl Env + AllocGlobal)) -> Result<Vec<String>, AllocError> {
    match env::args(rt) {
        Ok(args) => args.collect(rt.alloc()),
        Err(error) if error.kind() == ErrorKind::OutOfMemory => Err(AllocError),
        Err(_) => Ok(Vec::new(rt.alloc())),
    }
}

fn main(rt: HostRuntime) -> ExitCode {
    let Ok(words) = words(&rt) else {
        return ExitCode::from(NO_MEMORY);
    };
    let mut source = StdSource::over(rt.stdin());
    let mut sink = StdSink::over(rt.stdout());
    let outcome = top(&rt, rt.alloc(), &words, &mut source, &mut sink, &NoPace);
    ExitCode::from(outcome.status)
}
