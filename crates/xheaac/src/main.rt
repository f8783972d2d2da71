//! The program `xheaac`: the commands over the files of the system, standard output and standard error.
#![tactic(auto)]

use core_iface::FoldCore;
use outside::{FileShelf, StdSink};
use std::alloc::{AllocError, Global};
use std::io::{BufWriter, Write};
use std::process::ExitCode;
use std::rt::Env;
use std::{env, io};
use xheaac_tool::{WordsFault, run_line};

// The words of the command line without the program's name.
fn words_of<R: Env + AllocGlobal>(rt: &R) -> Result<Vec<String>, WordsFault> {
    let args = match env::args(rt) {
        Ok(args) => args,
        Err(error) if error.kind() == io::ErrorKind::OutOfMemory => {
            return Err(WordsFault::Memory(AllocError));
        }
        Err(_) => return Err(WordsFault::NotText),
    };
    let mut words = Vec::new(rt.alloc());
    for word in args.skip(1) {
        if words.push(word).is_err() {
            return Err(WordsFault::Memory(AllocError));
        }
    }
    Ok(words)
}

// How many bytes of output are held back at most: some lines, and no frame of samples, which has at least 1536 bytes.
const HELD: usize = 1024;

// Runs the program on a command line with that writer as its output, and answers the status.
fn run_to<W: Write + Drop>(
    rt: HostRuntime,
    words: Result<Vec<String>, WordsFault>,
    writer: W,
) -> u8 {
    let alloc = rt.alloc();
    let mut out = StdSink::new(writer);
    let mut note = StdSink::new(rt.stderr());
    let mut shelf = FileShelf::new(rt, alloc);
    let mut core = FoldCore::new();
    run_line(alloc, words, &mut shelf, &mut out, &mut note, &mut core)
}

fn main(rt: HostRuntime) -> ExitCode {
    let words = words_of(&rt);
    let stdout = rt.stdout();
    let status = match BufWriter::with_capacity(rt.alloc(), HELD, rt.stdout()) {
        Ok(writer) => run_to(rt, words, writer),
        Err(_) => run_to(rt, Err(WordsFault::Memory(AllocError)), stdout),
    };
    ExitCode::from(status)
}
