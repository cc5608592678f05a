//! The program: it serves the packets on standard input, in order, and writes what they are answered to standard output.
//!
//! What it does is [`swank_command::run`], whose clauses are the program's promises. [`main`] hands it the words of the command line, a
//! fresh image and the standard streams, and turns the status that it gives into the exit status and a line on standard error:
//! `specs/Failures.antt` has the numbers.
#![tactic(auto)]

mod devices;
mod failure;
#[cfg(test)]
mod tests;

use crate::devices::{ReaderSource, WriterSink};
use crate::failure::Failure;
use lisp_data::{Rows, Text};
use lisp_image::Image;
use std::env;
use std::io::ErrorKind;
use std::process::ExitCode;
use swank_command::{Status, run};

/// The words of the command line behind the program's name. A word that is no UTF-8 makes no command.
fn words(rt: &HostRuntime) -> Result<Rows<Text>, Status> {
    let mut words = Rows::new(rt.alloc());
    let all = env::args(rt).map_err(|error| match error.kind() {
        ErrorKind::OutOfMemory => Status::NoMemory,
        _ => Status::Usage,
    })?;
    for word in all.skip(1) {
        let text = Text::of(rt.alloc(), word.as_str()).map_err(|_| Status::NoMemory)?;
        words.push(text).map_err(|_| Status::NoMemory)?;
    }
    Ok(words)
}

/// The words of the command line and a fresh image.
fn words_and_image(rt: &HostRuntime) -> Result<(Rows<Text>, Image), Status> {
    let words = words(rt)?;
    let image = Image::new(rt.alloc()).map_err(|_| Status::NoMemory)?;
    Ok((words, image))
}

/// Runs the command over the standard streams.
fn run_command(rt: &HostRuntime) -> Status {
    match words_and_image(rt) {
        Ok((words, image)) => {
            let mut input = ReaderSource::new(rt.stdin());
            let mut output = WriterSink::new(rt.stdout());
            run(rt.alloc(), words.as_slice(), image, &mut input, &mut output).status
        }
        Err(status) => status,
    }
}

fn main(rt: HostRuntime) -> ExitCode {
    match Failure::of(run_command(&rt)) {
        Some(failure) => {
            let _ = eprintln!(rt; "swank: {failure}");
            ExitCode::from(failure.number())
        }
        None => ExitCode::SUCCESS,
    }
}
