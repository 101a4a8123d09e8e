//! The program: standard input is the script, standard output gets the replies, and standard error says how it ended.
#![tactic(auto)]

use hack_io::{StdSink, StdSource};
use hack_serve::{Status, hack_main};
use std::alloc::Global;
use std::env::Args;
use std::io::{Read, Write};
use std::process::ExitCode;
use std::{env, io};

fn main(rt: HostRuntime) -> ExitCode {
    let status = match env::args(&rt) {
        Ok(args) => run(rt.alloc(), args, rt.stdin(), rt.stdout()),
        Err(error) => refusal(&error),
    };
    if status != Status::Done {
        let _ = eprintln!(rt; "{status}");
    }
    ExitCode::from(status.number())
}

/// Runs the server on the command line, whose first word is the program's name.
fn run<R: Read + Drop, W: Write + Drop>(alloc: Global, args: Args, reader: R, writer: W) -> Status {
    match args.skip(1).collect::<Vec<String>>(alloc) {
        Ok(words) => hack_main(
            alloc,
            &words,
            &mut StdSource::new(reader),
            &mut StdSink::new(writer),
        ),
        Err(_) => Status::NoMemory,
    }
}

/// How the program ends where it can't have its words: one that isn't text makes the command line faulty.
fn refusal(error: &io::Error) -> Status {
    match error.kind() {
        io::ErrorKind::OutOfMemory => Status::NoMemory,
        _ => Status::Usage,
    }
}
