// The program: the words after its name, the files of the system, and standard output.
#![tactic(auto)]

mod law;

use dart_edge::gate::OpenGate;
use dart_edge::real::{Folder, StdSink};
use dart_tool::status::Status;
use dart_tool::tool::dart;
use std::io::ErrorKind;
use std::process::ExitCode;
use std::rt::Env;
use std::{env, io};

// The words after the program's name. Where a word isn't UTF-8 there are none, since no command has such a word.
fn command_words(rt: &(impl Env + AllocGlobal)) -> io::Result<Vec<String>> {
    let mut words = Vec::new(rt.alloc());
    match env::args(rt) {
        Ok(args) => {
            for word in args.skip(1) {
                words.push(word)?;
            }
            Ok(words)
        }
        Err(error) if error.kind() == ErrorKind::OutOfMemory => Err(error),
        Err(_) => Ok(words),
    }
}

fn main(rt: HostRuntime) -> ExitCode {
    let alloc = rt.alloc();
    let Ok(words) = command_words(&rt) else {
        return ExitCode::from(Status::Memory.number());
    };
    let mut sources = Folder::new(&rt, alloc);
    let mut sink = StdSink::new(&rt);
    let status = dart(&rt, alloc, &words, &mut sources, &mut sink, &OpenGate);
    ExitCode::from(status.number())
}
