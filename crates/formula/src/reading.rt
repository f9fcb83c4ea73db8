// Reading into a buffer: as many bytes as there are, or as fit.
use std::io::{ErrorKind, Read};
use std::rt::Files;
use std::{fs, io};

// Reads until the buffer is full or the input ends, in pieces of any size: how many bytes have been read, or none where reading failed, which has
// been said.
pub fn read_all<R: Eprint + Alloc, S: Read>(
    rt: &R,
    source: &mut S,
    name: &str,
    buffer: &mut [u8],
) -> Option<usize> {
    match filling::read_full(source, buffer) {
        Ok(n) => Some(n),
        Err(why) => {
            say_failed(rt, name, why);
            None
        }
    }
}

// The same of a file. One that is absent has no bytes.
pub fn read_file<R: Files + Eprint + Alloc>(
    rt: &R,
    name: &str,
    buffer: &mut [u8],
) -> Option<usize> {
    match fs::open(rt, name) {
        Ok(mut file) => read_all(rt, &mut file, name, buffer),
        Err(why) if why.kind() == ErrorKind::NotFound => Some(0),
        Err(why) => {
            say_failed(rt, name, why);
            None
        }
    }
}

// Says on standard error what could not be read or written, and why, in the system's words. Where even that cannot be written, nothing is left to do.
pub fn say_failed<R: Eprint + Alloc>(rt: &R, name: &str, why: io::Error) {
    let _ = match why.to_string(rt.alloc()) {
        Ok(text) => eprintln!(rt; "{name}: {}", without_number(text.as_str())),
        Err(_) => eprintln!(rt; "{name}: {why}"),
    };
}

// std writes the error's number behind the system's words, in parentheses.
fn without_number(text: &str) -> &str {
    match text.split_once(" (os error ") {
        Some((words, _)) => words,
        None => text,
    }
}
