//! Files in memory, for tests: all is known of them.

ghost use Rattle.std.specs.Prelude.{◌≡◌, None, false, option_map, string_bytes};
ghost use Rattle.program.specs.Files.{missing};
ghost use Rattle.program.specs.Table.{put_in, standing_in};

use crate::files::{Files, OpenFault};
use crate::hindrance::Hindrance;
use crate::invocation::Paths;
use byte_stream::{Cut, TestFeed, TestSink};
use fault_words::Obstacle;
use std::alloc::Global;

/// How many bytes go into a file that is written.
const ROOM: usize = 16_777_216;

/// What stands at a path.
#[derive(Clone, Copy, Debug)]
pub struct Place<'a> {
    /// The path.
    pub path: &'a str,
    /// The bytes that stand there.
    pub bytes: &'a [u8],
}

/// A file that was written.
#[derive(Drop)]
pub struct Put {
    /// Its path.
    pub path: String,
    /// What it holds.
    pub held: TestSink,
}

/// Files that can be read: the first with a path stands there, and nothing else can be opened. The
/// last that was written is kept apart from them.
#[derive(Drop)]
pub struct Table<'a> {
    alloc: Global,
    places: &'a [Place<'a>],
    cut: Cut,
    opened: u64,
    made: u64,
    part: Option<String>,
    is_there: bool,
    placed: u64,
    hindered: u64,
    last: Option<Put>,
}

impl<'a> Table<'a> {
    /// These files, of which none was opened, and none written. Each pull gives as many bytes as
    /// `cut` says.
    pub fn new(alloc: Global, places: &'a [Place<'a>], cut: Cut) -> Table<'a>
        ensures { ⟦<Table<'a> as Files>⟧.state result ≡ record {
          standing = λ path. standing_in path places.now;
          opened = 0;
          drafts = record {
            made = 0;
            last = None;
            is_there = false;
            placed = 0;
            hindered = 0;
            put = λ path. missing;
          };
        } }
    {
        Table {
            alloc,
            places,
            cut,
            opened: 0,
            made: 0,
            part: None,
            is_there: false,
            placed: 0,
            hindered: 0,
            last: None,
        }
    }

    /// The last file that was written, if there is one.
    pub fn last(&self) -> &Option<Put>
        ensures { result.now ≡ self.now.last }
    {
        &self.last
    }
}

impl<'a> Files for Table<'a> {
    type Opened = TestFeed<'a>;

    type Draft = TestSink;

    ghost state = { λ table. record {
      standing = λ path. standing_in path table.places.now;
      opened = table.opened;
      drafts = record {
        made = table.made;
        last = option_map string_bytes table.part;
        is_there = table.is_there;
        placed = table.placed;
        hindered = table.hindered;
        put = λ path. put_in path table.last;
      };
    } };

    fn open(&mut self, path: &str) -> Result<TestFeed<'a>, OpenFault> {
        self.opened += 1;
        let (places, cut) = (self.places, self.cut);
        for place in places {
            if place.path == path {
                return Ok(TestFeed::new(place.bytes, cut, None));
            }
        }
        Err(OpenFault)
    }

    fn create(&mut self, _path: &str, part: String, _paths: &Paths) -> Result<TestSink, Hindrance> {
        match TestSink::new(self.alloc, ROOM, ROOM, None, false) {
            Ok(sink) => {
                self.made += 1;
                self.part = Some(part);
                self.is_there = true;
                Ok(sink)
            }
            Err(_) => {
                self.hindered += 1;
                Err(Hindrance::of(Obstacle::Refused))
            }
        }
    }

    fn place(&mut self, draft: TestSink, path: &str) -> Result<(), Hindrance> {
        self.is_there = false;
        match String::from_str(self.alloc, path) {
            Ok(path) => {
                self.placed += 1;
                self.last = Some(Put { path, held: draft });
                Ok(())
            }
            Err(_) => {
                self.hindered += 1;
                Err(Hindrance::of(Obstacle::Refused))
            }
        }
    }

    fn remove(&mut self, _draft: TestSink) {
        self.is_there = false;
    }
}
