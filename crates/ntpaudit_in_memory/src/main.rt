//! ntpaudit over files in memory, for tests: the same `run_process` of command_line, over a table
//! of which all is known, so that the whole contract of its `run` holds.
//!
//! Before the run each word that names a file is read whole, and standard input if it may be an
//! input. Afterwards the file that was written, if one was, is put on the disk. A run sees nothing
//! of folders, links and devices.

#![tactic(auto)]

use byte_stream::Cut;
use command_line::{run_process, words_of};
use program::{Place, STDIN, Table};
use second_look::say;
use std::alloc::AllocError;
use std::fs::{File, Files};
use std::hash::{BuildHasherDefault, FoldHasher};
use std::io::{Read, Result};
use std::process::ExitCode;
use std::{env, fs};

/// The status if the files can't be brought into memory, or onto the disk.
const BROKEN: u8 = 70;

/// How many bytes are read of a device that may have no end.
const MOST: u64 = 536_870_912;

/// How many bytes each pull of a file gives.
const SHARE: usize = 4096;

/// A file in memory, by the word that names it.
#[derive(Drop)]
struct Loaded<'a> {
    word: &'a str,
    bytes: Vec<u8>,
}

/// The file that a word names, if it can be opened without waiting for somebody.
fn opened(rt: &HostRuntime, word: &str) -> Option<File> {
    match rt.metadata(word) {
        Ok(found) if found.is_file() || word.starts_with("/dev/") => fs::open(rt, word).ok(),
        _ => None,
    }
}

/// The bytes of what this word names.
fn load<'a, R: Read + Drop>(rt: &HostRuntime, word: &'a str, from: R) -> Result<Loaded<'a>> {
    let mut bytes = Vec::new(rt.alloc());
    from.take(MOST).read_to_end(&mut bytes)?;
    Ok(Loaded { word, bytes })
}

/// The files that these words name. Standard input is one if it is named, and of `list` if nothing
/// else is.
fn files_named_by<'a>(rt: &HostRuntime, words: &'a [String]) -> Result<Vec<Loaded<'a>>> {
    let mut files = Vec::new(rt.alloc());
    for word in words.iter().skip(1) {
        if let Some(file) = opened(rt, word.as_str()) {
            files.push(load(rt, word.as_str(), file)?)?;
        }
    }
    let is_listed = files.is_empty() && words.iter().any(|word| word.as_str() == "list");
    if is_listed || words.iter().any(|word| word.as_str() == STDIN) {
        files.push(load(rt, STDIN, rt.stdin())?)?;
    }
    Ok(files)
}

/// Runs the words of the process over these files in memory.
fn run_over(
    rt: &HostRuntime,
    words: &std::result::Result<Option<Vec<String>>, AllocError>,
    files: &[Loaded<'_>],
) -> Result<ExitCode> {
    let mut places = Vec::new(rt.alloc());
    for file in files {
        places.push(Place {
            path: file.word,
            bytes: file.bytes.as_slice(),
        })?;
    }
    let mut table = Table::new(rt.alloc(), places.as_slice(), Cut::Fixed(SHARE));
    let hasher = BuildHasherDefault::<FoldHasher>::new();
    let response = run_process(rt, words, &mut table, hasher);
    if let Some(put) = table.last() {
        fs::write(rt, put.path.as_str(), put.held.bytes())?;
    }
    say(rt, &response);
    Ok(ExitCode::from(response.conclusion.code))
}

fn main(rt: HostRuntime) -> ExitCode {
    let words = words_of(rt.alloc(), env::args(&rt));
    let files = match &words {
        Ok(Some(words)) => files_named_by(&rt, words.as_slice()),
        _ => Ok(Vec::new(rt.alloc())),
    };
    match files.and_then(|files| run_over(&rt, &words, files.as_slice())) {
        Ok(status) => status,
        Err(_) => ExitCode::from(BROKEN),
    }
}
