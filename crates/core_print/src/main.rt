// The program: the words after its name, the files of the system, and standard output.
#![tactic(auto)]

mod loaded;
mod printer;
mod root;

use crate::printer::print;
use dart_edge::real::{Folder, StdSink};
use dart_tool::status::Status;
use std::io::ErrorKind;
use std::process::ExitCode;
use std::rt::Env;
use std::{env, io};

// The words after the program's name. Where a word isn't UTF-8 there are none, which asks for nothing.
fn command_words(rt: &(impl Env + AllocGlobal)) -> io::Result<Vec<String>> {
    let mut words = Vec::new(rt.alloc());
    match env::args(rt) {
        Ok(args) => {
            for word in args.skip(1) {
                words.push(word)?;
            }
            Ok(words)
        }
        Err(error) if error.kind() == ErrorKind::OutOfMemory => Err(error),
        Err(_) => Ok(words),
    }
}

fn main(rt: HostRuntime) -> ExitCode {
    let alloc = rt.alloc();
    let Ok(words) = command_words(&rt) else {
        return ExitCode::from(1);
    };
    let mut sources = Folder::new(&rt, alloc);
    let mut sink = StdSink::new(&rt);
    match print(&rt, alloc, &words, &mut sources, &mut sink) {
        Status::Done => ExitCode::from(0),
        _ => ExitCode::from(1),
    }
}
