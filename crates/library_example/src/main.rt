//! Writes the outputs that are made from `greet.c`.
#![tactic(auto)]

mod snippets; // not in README.md

use ninja::{DiskFiles, Error, Graph, WriteSink, load, write_whole};
use std::io;
use std::process::ExitCode;

fn main(rt: HostRuntime) -> io::Result<ExitCode> {
    match run(rt) {
        Ok(()) => Ok(ExitCode::SUCCESS),
        Err(error) => {
            eprintln!(rt; "{error}")?;
            Ok(ExitCode::FAILURE)
        }
    }
}

fn run(rt: HostRuntime) -> Result<(), Error> {
    let mut files = DiskFiles::new(rt, rt.alloc(), None)?;
    let loaded = load(rt.alloc(), &mut files, "build.ninja")?;
    describe(rt, loaded.graph())
}

fn describe(rt: HostRuntime, graph: &Graph) -> Result<(), Error> {
    let mut text = Vec::new(rt.alloc());
    let file = graph.target(rt.alloc(), b"greet.c")?;
    for user in file.users() {
        for output in user.outputs() {
            text.extend_from_slice(output.path())?;
            text.push(b'\n')?;
        }
    }
    write_whole(&mut WriteSink::new(rt.stdout()), &text)?;
    Ok(())
}
