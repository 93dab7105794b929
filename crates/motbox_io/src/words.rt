// A refusal in words, on standard error: `refused 51 line 3`, and on the next line which field it is and why.
use crate::progress::later;
use mot_fault::{Fault, Report, report};
use std::io::{Print, Stderr};

fn say(errors: Stderr, text: &[u8]) {
    let _ = errors.write_all(text);
}

fn say_number(errors: Stderr, n: u64) {
    let _ = errors.print(n);
}

// The name of field i of a detection line.
fn say_name(errors: Stderr, i: usize) {
    match i {
        1 => say(errors, b"frame"),
        2 => say(errors, b"id"),
        3 => say(errors, b"left"),
        4 => say(errors, b"top"),
        5 => say(errors, b"width"),
        6 => say(errors, b"height"),
        7 => say(errors, b"confidence"),
        8 => say(errors, b"x"),
        9 => say(errors, b"y"),
        _ => say(errors, b"z"),
    }
}

fn say_field(errors: Stderr, i: usize, byte: usize, why: &[u8]) {
    say(errors, b"field ");
    say_number(errors, i as u64);
    say(errors, b", ");
    say_name(errors, i);
    if byte != 0 {
        say(errors, b", byte ");
        say_number(errors, byte as u64);
    }
    say(errors, b": ");
    say(errors, why);
}

fn say_count(errors: Stderr, n: usize) {
    if 10 < n {
        say(errors, b"more than 10 fields");
        return;
    }
    say_number(errors, n as u64);
    say(errors, b" of 10 fields");
}

// A line that is longer than what was kept of it has no line feed in that either.
fn say_no_feed(errors: Stderr, length: usize) {
    say(errors, b"no line feed in ");
    say_number(errors, length as u64);
    say(errors, b" bytes");
}

// Of a line of which so many bytes were kept.
fn say_fault(errors: Stderr, fault: Fault, i: usize, byte: usize, length: usize) {
    match fault {
        Fault::NoLineFeed => say_no_feed(errors, length),
        Fault::EmptyLine => say(errors, b"an empty line"),
        Fault::CarriageReturn => say(errors, b"a carriage return before the line feed"),
        Fault::FieldCount => say_count(errors, i),
        Fault::Empty => say_field(errors, i, byte, b"empty"),
        Fault::OtherByte => say_field(errors, i, byte, b"not a digit"),
        Fault::MinusAlone => say_field(errors, i, byte, b"a minus and no digit"),
        Fault::NoDigits => say_field(errors, i, byte, b"no digit before the point"),
        Fault::ManyDigits => say_field(errors, i, byte, b"more than six digits"),
        Fault::NoDecimals => say_field(errors, i, byte, b"no digit behind the point"),
        Fault::ManyDecimals => say_field(errors, i, byte, b"more than six digits behind the point"),
        Fault::NotMinusOne => say_field(errors, i, byte, b"not -1"),
        Fault::FilledId => say_field(errors, i, byte, b"filled: a result line"),
        Fault::FrameZero => say_field(errors, i, byte, b"frames are numbered from 1"),
        Fault::FrameBack => say_field(errors, i, byte, b"below the frame of the line before"),
        Fault::FirstFrameFar => say_field(errors, i, byte, b"above 1000 in the first line"),
        Fault::FrameFar => say_field(
            errors,
            i,
            byte,
            b"more than 1000 above the frame of the line before",
        ),
        Fault::NotAboveZero => say_field(errors, i, byte, b"not above 0"),
        Fault::Beyond => say_field(errors, i, byte, b"beyond 65536"),
        Fault::BelowZero => say_field(errors, i, byte, b"below 0"),
        Fault::AboveOne => say_field(errors, i, byte, b"above 1"),
    }
}

// Of the line behind `lines` others, which was turned away behind this frame.
pub(crate) fn explain(errors: Stderr, number: u32, lines: u64, line: &[u8], previous: u32) {
    say(errors, b"refused ");
    say_number(errors, number as u64);
    say(errors, b" line ");
    say_number(errors, later(lines));
    say(errors, b"\n");
    let Err(found) = report(line, previous) else {
        return;
    };
    let Report { fault, field, byte } = found;
    say_fault(errors, fault, field, byte, line.len());
    say(errors, b"\n");
}
