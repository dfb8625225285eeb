//! What is said of a fault to a person, behind its line.
//!
//! Once a run is over and its fault is reported, the file that the fault is of is looked at again,
//! if it is a regular one, for what stands there. That changes neither line nor status.

use crate::warning::warnings;
use byte_stream::{Feed, ReadFeed, WriteSink};
use fault_words::{
    FileKind, Names, STANDARD_INPUT, Seen, explain, explain_output, explain_time, input_of, look,
    look_at_records, shown,
};
use pcap_reader::CaptureFault;
use program::{Asked, Hindrance, Response, STDIN};
use report::{Input, RunFault, deliver, read_input};
use std::alloc::{AllocError, Global};
use std::fs;
use std::fs::{File, Files};
use std::io::{ErrorKind, IsTerminal};
use std::os::unix::fs::FileTypeExt;

/// How many bytes of a file are looked at, if there are no more.
const MAX_SEEN: u64 = 1_048_576;

/// How many bytes are looked at of a larger file.
const FRONT: usize = 64;

/// What stands behind a fault line at a terminal, unless it was asked to say more.
const HINT: &[u8] = b"  (--human says more)\n";

/// Says in words which fault was reported, or, if there was none, what looks like a slip of the pen
/// in what was answered. Where memory is refused nothing is said: the run is over, and its answer
/// or its line is out.
pub fn say(rt: &HostRuntime, response: &Response) {
    let asked = &response.asked;
    if asked.is_for_a_person() {
        if let Ok(words) = words_of(rt, response) {
            write(rt, words.as_slice());
        }
    } else if 1 < response.conclusion.code
        && asked.has_a_fault_line()
        && rt.stderr().is_terminal()
    {
        write(rt, HINT);
    }
}

/// Writes words on standard error.
fn write(rt: &HostRuntime, words: &[u8]) {
    let _ = deliver(words, &mut WriteSink::new(rt.stderr()));
}

/// The words about a run that was asked to say more.
fn words_of(rt: &HostRuntime, response: &Response) -> Result<Vec<u8>, AllocError> {
    let alloc = rt.alloc();
    let asked = &response.asked;
    let words = match (asked, &response.hindrance, &response.conclusion.fault) {
        (Asked::Time(Some(time)), _, _) => explain_time(alloc, time.as_str())?,
        (_, Some(hindrance), _) => words_of_hindrance(alloc, asked.output(), hindrance)?,
        (_, None, Some(fault)) => words_of_fault(rt, &asked.names(), fault)?,
        (_, None, None) => return warnings(rt, &asked.names()),
    };
    Ok(words.into_bytes())
}

/// The words about what hinders the file of this name from being written.
fn words_of_hindrance(
    alloc: Global,
    name: &str,
    hindrance: &Hindrance,
) -> Result<String, AllocError> {
    let name = shown_name(alloc, name)?;
    let seen = match &hindrance.error {
        Some(error) => format!(in alloc; ": {error}")?,
        None => String::new(alloc),
    };
    explain_output(alloc, name.as_str(), hindrance.obstacle, seen.as_str())
}

/// The words about a fault.
fn words_of_fault(
    rt: &HostRuntime,
    names: &Names<'_>,
    fault: &RunFault,
) -> Result<String, AllocError> {
    let alloc = rt.alloc();
    let found = match input_of(fault) {
        Some(input) => look_again(rt, path_of(names.of(input)), input, fault)?,
        None => Seen::nothing(alloc),
    };
    let claim = shown_name(alloc, names.claim)?;
    let capture = shown_name(alloc, names.capture)?;
    let second = shown_name(alloc, names.second)?;
    let sums = shown_name(alloc, names.sums)?;
    let names = Names {
        claim: claim.as_str(),
        capture: capture.as_str(),
        second: second.as_str(),
        sums: sums.as_str(),
    };
    explain(alloc, &names, fault, &found)
}

/// The path by which an input is looked at again.
pub fn path_of(operand: &str) -> &str {
    if operand == STDIN {
        "/dev/stdin"
    } else {
        operand
    }
}

/// A file's name as it is shown.
pub(crate) fn shown_name(alloc: Global, name: &str) -> Result<String, AllocError> {
    if name == STDIN {
        return String::from_str(alloc, STANDARD_INPUT);
    }
    shown(alloc, name)
}

/// What is seen of a fault in the file of this path.
fn look_again(
    rt: &HostRuntime,
    path: &str,
    input: Input,
    fault: &RunFault,
) -> Result<Seen, AllocError> {
    if let RunFault::Device(_) = fault {
        return look_at_device(rt, path);
    }
    let Some(file) = open_regular(rt, path) else {
        return unseen(rt, path);
    };
    match fault {
        RunFault::Capture(
            fault @ (CaptureFault::TornRecord(_)
            | CaptureFault::TooLong(_)
            | CaptureFault::BadFraction(_)),
        ) => look_at_records(rt.alloc(), ReadFeed::new(file), fault),
        _ => look_at_bytes(rt, path, file, input, fault),
    }
}

/// What the system says of a file that can't be opened or read.
fn look_at_device(rt: &HostRuntime, path: &str) -> Result<Seen, AllocError> {
    let alloc = rt.alloc();
    let refused = match rt.metadata(path) {
        Err(error) => Some(error),
        Ok(metadata) if metadata.is_dir() => return Seen::of_kind(alloc, FileKind::Folder),
        Ok(metadata) if metadata.is_file() => fs::open(rt, path).err(),
        Ok(_) => None,
    };
    let Some(error) = refused else {
        return Ok(Seen::nothing(alloc));
    };
    let kind = match error.kind() {
        ErrorKind::NotFound => FileKind::Absent,
        _ => FileKind::Unknown,
    };
    let seen = format!(in alloc; ": {error}")?;
    Ok(Seen {
        kind,
        ..Seen::of_text(seen)
    })
}

/// A regular file, opened. Another one isn't: a pipe might be waited for without end.
pub(crate) fn open_regular(rt: &HostRuntime, path: &str) -> Option<File> {
    match rt.metadata(path) {
        Ok(metadata) if metadata.is_file() => fs::open(rt, path).ok(),
        _ => None,
    }
}

/// What is seen of a file that isn't looked at again: that it's a pipe, if it is one.
fn unseen(rt: &HostRuntime, path: &str) -> Result<Seen, AllocError> {
    match rt.metadata(path) {
        Ok(metadata) if metadata.file_type().is_fifo() => Seen::of_kind(rt.alloc(), FileKind::Pipe),
        _ => Ok(Seen::nothing(rt.alloc())),
    }
}

/// What is seen of a fault in the bytes of a file, or in the first ones of a large one.
fn look_at_bytes(
    rt: &HostRuntime,
    path: &str,
    file: File,
    input: Input,
    fault: &RunFault,
) -> Result<Seen, AllocError> {
    let alloc = rt.alloc();
    if let Ok(bytes) = read_input(alloc, &mut ReadFeed::new(file), input, MAX_SEEN) {
        return look(alloc, fault, bytes.as_slice(), true);
    }
    let mut front = [0; FRONT];
    let Some(file) = open_regular(rt, path) else {
        return Ok(Seen::nothing(alloc));
    };
    match ReadFeed::new(file).pull(&mut front) {
        Ok(count) => look(alloc, fault, &front[..count], false),
        Err(_) => Ok(Seen::nothing(alloc)),
    }
}
