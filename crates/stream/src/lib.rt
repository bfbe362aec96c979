// Standard input and output of the programs, with a line on standard error where one of them fails.
#![tactic(auto)]

ghost use Rattle.std.specs.Prelude.{IfOk, IfErr};
ghost use Rattle.io.specs.Counts.{IsPrefixLen};

use std::env::{Env, FillError};
use std::io;
use std::io::{Read, Write};

// A read failed; so many bytes stood before it.
#[derive(Clone, Copy)]
pub struct ReadFailed {
    pub length: usize,
}

// What failed, and the system's reason without its number; with it where there is no memory to cut it off.
fn explain(rt: &HostRuntime, what: &str, error: &io::Error) -> io::Result<()> {
    let Ok(told) = format!(in rt.alloc(); "{error}") else {
        return eprintln!(rt; "{what}: {error}");
    };
    let text = told.as_str();
    match text.split_once(" (os error ") {
        Some((reason, _)) => eprintln!(rt; "{what}: {reason}"),
        None => eprintln!(rt; "{what}: {text}"),
    }
}

// Standard input: reads until the buffer is full, the input ends or a read fails, with a line that says so.
pub fn read_input(rt: &HostRuntime, buf: &mut [u8]) -> Result<usize, ReadFailed>
    ensures ok { IfOk result (λ n. IsPrefixLen n buf.new) }
    ensures err { IfErr result (λ e. IsPrefixLen e.length buf.new) }
{
    let mut length = 0;
    while length < buf.len() {
        match rt.stdin().read(&mut buf[length..]) {
            Ok(0) => break,
            Ok(count) => length += count,
            Err(error) => {
                let _ = explain(rt, "can't read standard input", &error);
                return Err(ReadFailed { length });
            }
        }
    }
    Ok(length)
}

// To standard output, or a line that says that it can't be written.
pub fn write_output(rt: &HostRuntime, bytes: &[u8]) {
    if let Err(error) = rt.stdout().write_all(bytes) {
        let _ = explain(rt, "can't write standard output", &error);
    }
}

// To standard error.
pub fn write_error(rt: &HostRuntime, bytes: &[u8]) {
    let _ = rt.stderr().write_all(bytes);
}

// Whether the program was called with arguments, of which it takes none: it then says what it is for.
pub fn explained(rt: &HostRuntime, purpose: &[u8]) -> bool {
    let mut first = [0u8; 1];
    if let Err(FillError::NotPresent) = rt.arg(1, &mut first) {
        return false;
    }
    write_error(rt, purpose);
    true
}
