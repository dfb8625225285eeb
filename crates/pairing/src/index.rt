//! The index of requests.

ghost use Rattle.std.specs.Prelude.{◌≡◌, ◌<◌, [], ◌∷◌, ◌++◌, List, IfOk, OnOk};
ghost use Rattle.pairing.specs.Common.{get, per_second};
ghost use Rattle.pairing.specs.Index.{Finds, indexed_of, request_at, same_key};
ghost use Rattle.pairing.specs.declared.index.IndexedRequest.{IndexedRequest as Request};

use crate::compact_window::CompactWindow;
use crate::hashing::KeyHasher;
use indexmap::IndexMap;
use pcap_reader::RecordHead;
use std::alloc::{AllocError, Global};

/// What a request and its replies share.
#[derive(Clone, Copy, PartialEq, Eq, Hash)]
pub(crate) struct Key {
    /// The server's number.
    pub server: u8,
    /// The client's port.
    pub port: u16,
    /// The request's transmit timestamp, the reply's origin timestamp.
    pub stamp: u64,
}

/// A request as it is kept, in 32 bytes.
#[derive(Clone, Copy)]
pub(crate) struct IndexedRequest {
    /// What its replies share.
    pub key: Key,
    /// How many ticks after the first one the record's window ends.
    pub width: u16,
    /// The record's number.
    pub number: u32,
    /// The first tick of the record's window.
    pub low: u64,
}

const _: () = prove!(size_of::<IndexedRequest>() == 32 && size_of::<Place>() == 16);

impl IndexedRequest {
    /// The request with this key that a record holds.
    #[inline(always)]
    pub(crate) fn new(key: Key, head: &RecordHead) -> IndexedRequest
        requires { head.now.sub < per_second head.now.unit }
        ensures { result ≡ indexed_of (request_at key head.now) }
    {
        let CompactWindow { low, width } = CompactWindow::new(head);
        IndexedRequest {
            key,
            width,
            number: head.number,
            low,
        }
    }
}

/// The requests with one key.
#[derive(Clone, Copy)]
pub(crate) enum Place {
    /// The one and only: its record.
    One {
        /// How many ticks after the first one the record's window ends.
        width: u16,
        /// The record's number.
        number: u32,
        /// The first tick of the record's window.
        low: u64,
    },
    /// Two or more.
    Several,
}

/// The requests of a whole capture by their keys, in the order of each key's first request.
#[derive(Drop)]
pub(crate) struct Index {
    places: IndexMap<Key, Place, KeyHasher>,
}

impl Index {
    /// The index of these requests. Its room is made once, so that it never grows.
    pub(crate) fn new(
        alloc: Global,
        requests: &[IndexedRequest],
        hasher: KeyHasher,
    ) -> Result<Index, AllocError>
        ensures { IfOk result (λ index. Finds (get same_key index.places) requests.now) }
    {
        let places = IndexMap::with_capacity_and_hasher(alloc, requests.len(), hasher)?;
        let mut index = Index { places };
        for request in requests {
            index.note(request)?;
        }
        Ok(index)
    }

    /// Notes one more request.
    #[inline(always)]
    fn note(&mut self, request: &IndexedRequest) -> Result<(), AllocError>
        ensures { (before : List Request) → Finds (get same_key self.old.places) before →
            OnOk result (Finds (get same_key self.new.places) (before ++ request.now ∷ [])) }
    {
        let IndexedRequest {
            key,
            width,
            number,
            low,
        } = *request;
        let before = self.places.insert(key, Place::One { width, number, low })?;
        if before.is_some() {
            self.places.insert(key, Place::Several)?;
        }
        Ok(())
    }

    /// What the requests with a key are. `guess` is the place where the key is looked for first,
    /// and then the one after the key, if it was found.
    ///
    /// Replies mostly come in the order of their requests, so the next reply's key is mostly the
    /// next one: with no hash, and no jump to a far place in memory.
    #[inline(always)]
    pub(crate) fn find_near(&self, key: Key, guess: &mut usize) -> Option<Place>
        ensures { result ≡ get same_key self.now.places key }
    {
        let (found, place) = match self.places.get_index(*guess) {
            Some((noted, place)) if *noted == key => (*guess, place),
            _ => {
                let (found, _, place) = self.places.get_full(&key)?;
                (found, place)
            }
        };
        *guess = found.saturating_add(1);
        Some(*place)
    }
}
