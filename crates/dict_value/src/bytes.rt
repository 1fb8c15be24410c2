// A list of bytes over a `Vec`, which contracts see as a list of numbers.
ghost use Rattle.std.specs.Prelude.{◌≡◌, [], ◌∷◌, ◌++◌, ◌<◌, ◌≤◌, ◌+◌, ◌↔◌, take, drop, length, replicate, OnOk, OnErr};
ghost use Rattle.std.specs.Prelude.{IfOk, IsOk, IsTrue};

use crate::fault::NoMemory;
use std::alloc::Global;
use std::marker::Model;

/// A list of bytes.
#[derive(Debug, Drop)]
pub struct Bytes {
    items: Vec<u8>,
}

impl Model for Bytes {
    ghost use Rattle.std.specs.Prelude.{List, ℕ};

    ghost Value = { List ℕ };

    ghost view = { λ it. it.items.items };
}

impl Bytes {
    /// The empty list, which takes no memory.
    pub fn new(alloc: Global) -> Bytes
        ensures { result ≡ [] }
    {
        Bytes {
            items: Vec::new(alloc),
        }
    }

    /// The bytes of a `Vec`, without a copy.
    pub fn from_vec(items: Vec<u8>) -> Bytes
        ensures { result ≡ items.items }
    {
        Bytes { items }
    }

    /// The `Vec` that holds the bytes, without a copy.
    pub fn into_vec(self) -> Vec<u8>
        ensures { result.items ≡ self }
    {
        let Bytes { items } = self;
        items
    }

    /// So many zero bytes.
    pub fn zeros(alloc: Global, count: usize) -> Result<Bytes, NoMemory>
        ensures { IfOk result (λ b. b ≡ replicate count 0) }
    {
        match Vec::from_elem(alloc, 0u8, count) {
            Ok(items) => Ok(Bytes { items }),
            Err(_) => Err(NoMemory),
        }
    }

    /// The empty list with room for so many bytes.
    pub fn with_room(alloc: Global, room: usize) -> Result<Bytes, NoMemory>
        ensures { IfOk result (λ b. b ≡ []) }
    {
        match Vec::with_capacity(alloc, room) {
            Ok(items) => Ok(Bytes { items }),
            Err(_) => Err(NoMemory),
        }
    }

    /// Makes room for so many further bytes.
    pub fn reserve(&mut self, more: usize) -> Result<(), NoMemory>
        ensures { self.new ≡ self.old }
    {
        match self.items.reserve(more) {
            Ok(()) => Ok(()),
            Err(_) => Err(NoMemory),
        }
    }

    /// A copy of a piece.
    pub fn copy_of(alloc: Global, piece: &[u8]) -> Result<Bytes, NoMemory>
        ensures { IfOk result (λ b. b ≡ piece.now) }
    {
        match Vec::from_slice(alloc, piece) {
            Ok(items) => Ok(Bytes { items }),
            Err(_) => Err(NoMemory),
        }
    }

    /// A copy of a text; that of no bytes takes no memory.
    pub(crate) fn of_text(alloc: Global, text: &[u8]) -> Result<Bytes, NoMemory>
        ensures ok { IfOk result (λ b. b ≡ text.now) }
        ensures memory { text.now ≡ [] → IsOk result }
    {
        if text.is_empty() {
            return Ok(Bytes::new(alloc));
        }
        Bytes::copy_of(alloc, text)
    }

    pub fn as_slice(&self) -> &[u8]
        ensures { result.now ≡ self.now }
    {
        self.items.as_slice()
    }

    pub fn len(&self) -> usize
        ensures { result ≡ length self.now }
    {
        self.items.len()
    }

    pub fn is_empty(&self) -> bool
        ensures { IsTrue result ↔ (self.now ≡ []) }
    {
        self.items.is_empty()
    }

    /// Whether two lists have the same bytes.
    pub fn is_same(&self, other: &Bytes) -> bool
        ensures { IsTrue result ↔ (self.now ≡ other.now) }
    {
        self.items.as_slice() == other.items.as_slice()
    }

    /// Appends one byte; after `NoMemory` the list is as it was.
    pub fn push(&mut self, byte: u8) -> Result<(), NoMemory>
        ensures ok { OnOk result (self.new ≡ self.old ++ byte ∷ []) }
        ensures err { OnErr result (self.new ≡ self.old) }
    {
        match self.items.push(byte) {
            Ok(()) => Ok(()),
            Err(_) => Err(NoMemory),
        }
    }

    /// Appends a piece; after `NoMemory` the list is as it was. An empty piece takes no memory.
    pub fn extend(&mut self, piece: &[u8]) -> Result<(), NoMemory>
        ensures ok { OnOk result (self.new ≡ self.old ++ piece.now) }
        ensures err { OnErr result (self.new ≡ self.old) }
        ensures memory { piece.now ≡ [] → IsOk result }
    {
        match self.items.extend_from_slice(piece) {
            Ok(()) => Ok(()),
            Err(_) => Err(NoMemory),
        }
    }

    /// Stores a piece over the bytes from a place on; what stands before and behind it stays.
    pub fn store(&mut self, at: usize, piece: &[u8])
        requires { at + length piece.now ≤ length self.old }
        ensures { self.new ≡ take at self.old ++ piece.now ++ drop (at + length piece.now) self.old }
    {
        let _have = self.items.len();
        let end = at + piece.len();
        self.items.as_mut_slice()[at..end].copy_from_slice(piece);
    }

    /// Keeps the first bytes, and their room for later ones.
    pub fn truncate(&mut self, count: usize)
        ensures { self.new ≡ take count self.old }
    {
        self.items.truncate(count);
    }

    /// Empties the list, and keeps its room.
    pub fn clear(&mut self)
        ensures { self.new ≡ [] }
    {
        self.items.clear();
    }
}
