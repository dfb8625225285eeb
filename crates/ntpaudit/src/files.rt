//! The host's files: what stands at their paths isn't known before it is read.

ghost use Rattle.std.specs.Prelude.{◌≡◌, option_map, string_bytes};
ghost use Rattle.program.specs.Files.{unknown, unknown_files};

use crate::draft::{SyncedFile, create, refused};
use byte_stream::{ReadFeed, WriteSink};
use program::{Files, Hindrance, OpenFault, Paths, STDIN};
use std::fs::File;
use std::io::{Read, Stdin};
use std::{fs, io};

/// The host, how many files were opened, and what has become of drafts: how many were made, the
/// name of the last one, whether it's still there, how many have taken their place, and how often
/// one couldn't be made or take it.
#[derive(Drop)]
pub(crate) struct Host<'a> {
    rt: &'a HostRuntime,
    opened: u64,
    made: u64,
    part: Option<String>,
    is_there: bool,
    placed: u64,
    hindered: u64,
}

impl<'a> Host<'a> {
    /// The host's files, of which none was opened.
    pub(crate) fn new(rt: &'a HostRuntime) -> Host<'a>
        ensures { ⟦<Host<'a> as Files>⟧.state result ≡ unknown_files }
    {
        Host {
            rt,
            opened: 0,
            made: 0,
            part: None,
            is_there: false,
            placed: 0,
            hindered: 0,
        }
    }

    /// The name of the last draft that was made.
    fn part_name(&self) -> &str {
        match &self.part {
            Some(part) => part.as_str(),
            None => "",
        }
    }
}

/// What an operand names: a file, or standard input.
#[derive(Drop)]
pub(crate) enum Opened {
    /// A file, by its path.
    File(File),
    /// Standard input, by `-`.
    Stdin(Stdin),
}

impl Read for Opened {
    fn read(&mut self, into: &mut [u8]) -> io::Result<usize> {
        match self {
            Opened::File(file) => file.read(into),
            Opened::Stdin(stdin) => stdin.read(into),
        }
    }
}

impl<'a> Files for Host<'a> {
    type Opened = ReadFeed<Opened>;

    type Draft = WriteSink<SyncedFile>;

    ghost state = { λ host. record {
      standing = λ path. unknown;
      opened = host.opened;
      drafts = record {
        made = host.made;
        last = option_map string_bytes host.part;
        is_there = host.is_there;
        placed = host.placed;
        hindered = host.hindered;
        put = λ path. unknown;
      };
    } };

    fn open(&mut self, path: &str) -> Result<ReadFeed<Opened>, OpenFault> {
        self.opened += 1;
        if path == STDIN {
            return Ok(ReadFeed::new(Opened::Stdin(self.rt.stdin())));
        }
        match fs::open(self.rt, path) {
            Ok(file) => Ok(ReadFeed::new(Opened::File(file))),
            Err(_) => Err(OpenFault),
        }
    }

    fn create(
        &mut self,
        path: &str,
        part: String,
        paths: &Paths,
    ) -> Result<WriteSink<SyncedFile>, Hindrance> {
        match create(self.rt, path, part.as_str(), paths) {
            Ok(file) => {
                self.made += 1;
                self.part = Some(part);
                self.is_there = true;
                Ok(WriteSink::new(file))
            }
            Err(hindrance) => {
                self.hindered += 1;
                Err(hindrance)
            }
        }
    }

    fn place(&mut self, draft: WriteSink<SyncedFile>, path: &str) -> Result<(), Hindrance> {
        if let Err(error) = fs::rename(self.rt, self.part_name(), path) {
            self.remove(draft);
            self.hindered += 1;
            return Err(refused(error));
        }
        self.is_there = false;
        self.placed += 1;
        Ok(())
    }

    fn remove(&mut self, _draft: WriteSink<SyncedFile>) {
        let _ = fs::remove_file(self.rt, self.part_name());
        self.is_there = false;
    }
}
