// why FILE FRAME BOX: what became of a box of a frame, in words and numbers. Document 02, N9.
#![tactic(auto)]

use program_io::{Streams, fail, has_argument, write_out};
use std::env::{Env, FillError};
use std::fs::{File, Files};
use std::io::{Error, ErrorKind, Print, Stderr};
use why_io::{Ran, TEXT_BYTES, run};
use why_question::{Question, number_of};

fn usage(errors: Stderr) {
    let _ = errors.write_all(
        b"usage: why FILE FRAME BOX\nReads a file of box records of 25 bytes, works it as trackbox does up to that frame, and says what became of that box, counted from 0.\n",
    );
}

// An argument as a number.
fn argument<E: Env>(env: &E, i: usize) -> Option<u64> {
    let mut word = [0u8; 16];
    let n = program_io::argument(env, i, &mut word);
    number_of(&word[..n])
}

// The answer to standard output.
fn print(streams: Streams, said: &[u8]) {
    write_out(streams, b"why: standard output", said);
}

// The file ends before the frame.
fn over(errors: Stderr, frame: u64, last: u32) {
    let _ = eprintln!(errors; "why: the file has no frame {frame}: its last is {last}");
}

fn tell(streams: Streams, frame: u64, ran: Ran, text: &[u8]) {
    match ran {
        Ran::Said(n) => print(streams, &text[..n.min(text.len())]),
        Ran::Over(last) => over(streams.errors, frame, last),
        Ran::Failed => {}
    }
}

// A name that is no text cannot be opened.
fn answer<F: Files>(files: &F, streams: Streams, q: Question, name: &[u8]) {
    let Ok(path) = str::from_utf8(name) else {
        let error = Error::from(ErrorKind::InvalidInput);
        return fail(streams.errors, b"why: the file's name", error);
    };
    let mut from = match File::open(files, path) {
        Ok(from) => from,
        Err(e) => return fail(streams.errors, name, e),
    };
    let mut text = [0u8; TEXT_BYTES];
    let ran = run(q, &mut from, streams.errors, name, &mut text);
    tell(streams, q.frame, ran, &text);
}

// Why there is no name: the system's number for a name that is too long is 36, and for an argument that is missing 22.
fn no_name(why: FillError) -> Error {
    match why {
        FillError::TooLong => Error::from_raw_os_error(36),
        FillError::NotPresent => Error::from_raw_os_error(22),
    }
}

fn main(rt: HostRuntime) {
    let streams = Streams {
        input: rt.stdin(),
        output: rt.stdout(),
        errors: rt.stderr(),
    };
    if !has_argument(&rt, 3) | has_argument(&rt, 4) {
        return usage(streams.errors);
    }
    let Some(frame) = argument(&rt, 2) else {
        return usage(streams.errors);
    };
    let Some(index) = argument(&rt, 3) else {
        return usage(streams.errors);
    };
    let mut name = [0u8; 4096];
    match rt.arg(1, &mut name) {
        Ok(n) => answer(&rt, streams, Question { frame, index }, &name[..n]),
        Err(why) => fail(streams.errors, b"why: the file's name", no_name(why)),
    }
}
