//! The program: runs the command that its words name, on standard input and standard output.
#![tactic(auto)]

mod exit;

use crate::exit::{number_of, number_without_words};
use pts_boards::NoGate;
use pts_io::{StdSink, StdSource};
use pts_run::run_words;
use std::process::ExitCode;
use std::rt::Env;
use std::{env, io};

fn main(rt: HostRuntime) -> ExitCode {
    let number = match words(&rt) {
        Ok(words) => number_of(run_words(
            &rt,
            rt.alloc(),
            &words,
            &mut StdSource::new(rt.stdin()),
            &mut StdSink::new(rt.stdout()),
            &NoGate,
        )),
        Err(error) => number_without_words(error.kind()),
    };
    ExitCode::from(number)
}

// The words after the program's name.
fn words(rt: &(impl Env + AllocGlobal)) -> io::Result<Vec<String>> {
    Ok(env::args(rt)?.skip(1).collect(rt.alloc())?)
}
