//! The file that `-o` names: written beside its place, and put there once it's whole.
//!
//! FILE.part is made anew, so that nobody else's file or link is followed or overwritten. What the
//! system does with files is in no clause: `tests/system/test_outputs.py` tries it.

use fault_words::Obstacle;
use program::{Hindrance, Paths, path_or_none};
use second_look::path_of;
use std::fs::{File, Files, Metadata, OpenOptions};
use std::io::{Error, ErrorKind, Write};
use std::os::unix::fs::MetadataExt;
use std::{fs, io};

/// What the system refuses.
pub(crate) fn refused(error: Error) -> Hindrance {
    Hindrance {
        obstacle: Obstacle::Refused,
        error: Some(error),
    }
}

/// A file that is brought to its disk when it's flushed.
#[derive(Drop)]
pub(crate) struct SyncedFile(File);

impl Write for SyncedFile {
    fn write(&mut self, bytes: &[u8]) -> io::Result<usize> {
        self.0.write(bytes)
    }

    fn flush(&mut self) -> io::Result<()> {
        self.0.sync_all()
    }
}

/// Whether this operand names the same file.
fn is_input(rt: &HostRuntime, found: &Metadata, operand: &str) -> bool {
    match rt.metadata(path_of(operand)) {
        Ok(input) => input.dev() == found.dev() && input.ino() == found.ino(),
        Err(_) => false,
    }
}

/// What hinders this file from being replaced, if there is one.
fn obstacle_of(rt: &HostRuntime, found: &Metadata, paths: &Paths) -> Option<Obstacle> {
    if found.is_dir() {
        Some(Obstacle::Folder)
    } else if found.is_symlink() {
        Some(Obstacle::Link)
    } else if !found.is_file() {
        Some(Obstacle::Special)
    } else if is_input(rt, found, paths.claim.as_str())
        || is_input(rt, found, paths.capture.as_str())
        || is_input(rt, found, path_or_none(&paths.sums))
    {
        Some(Obstacle::Input)
    } else {
        None
    }
}

/// What hinders the file of this path from being made or replaced, if something does.
fn hindrance_at(rt: &HostRuntime, path: &str, paths: &Paths) -> Option<Hindrance> {
    match fs::symlink_metadata(rt, path) {
        Ok(found) => Some(Hindrance::of(obstacle_of(rt, &found, paths)?)),
        Err(error) if error.kind() == ErrorKind::NotFound => None,
        Err(error) => Some(refused(error)),
    }
}

/// Makes the draft `part` of the file of this path, if it may take that place for these inputs.
pub(crate) fn create(
    rt: &HostRuntime,
    path: &str,
    part: &str,
    paths: &Paths,
) -> Result<SyncedFile, Hindrance> {
    if let Some(hindrance) = hindrance_at(rt, path, paths) {
        return Err(hindrance);
    }
    let mut options = OpenOptions::new();
    options.write(true).create_new(true);
    match options.open(rt, part) {
        Ok(file) => Ok(SyncedFile(file)),
        Err(error) if error.kind() == ErrorKind::AlreadyExists => {
            Err(Hindrance::of(Obstacle::Draft))
        }
        Err(error) => Err(refused(error)),
    }
}
