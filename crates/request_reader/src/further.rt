// The lines that follow the first one of a block.
ghost use Rattle.std.specs.Prelude.{◌≡◌, ◌<◌, ◌≤◌, ◌++◌, ◌∷◌, [], ◌+◌, ◌^◌, ℕ, List, length, true, false};
ghost use Rattle.request_reader.specs.Taking.{Furthers, Keeps};

use dict_io::Link;
use dict_value::{Bytes, ListOf};
use line_reader::{Lines, Next};
use std::alloc::Global;
use wire_text::{MOST_BLOCK_BYTES, MOST_BLOCK_LINES};

/// What is kept of the lines of a block: all of them, unless they are too many or too long, or memory lacked.
#[derive(Drop)]
pub struct Further {
    pub lines: ListOf<Bytes>,
    /// The bytes of the lines so far, with their line feeds.
    pub bytes: u64,
    /// Whether all the lines so far are kept.
    pub kept: bool,
}

/// How the further lines of a request ended.
#[derive(Drop)]
pub enum More {
    All(Further),
    /// The input ended; all lines were there where `all` holds.
    Closed { further: Further, all: bool },
    TooLong,
    Failed,
}

impl Further {
    pub(crate) fn new(alloc: Global) -> Further
        ensures { Keeps result [] 0 }
    {
        Further {
            lines: ListOf::new(alloc),
            bytes: 0,
            kept: true,
        }
    }

    /// Whether so many lines of so many bytes are those of a request.
    fn is_small(&self) -> bool {
        self.bytes <= u64::from(MOST_BLOCK_BYTES) && self.lines.len() < MOST_BLOCK_LINES as usize
    }

    /// With one more line, of so many bytes with its line feed where it has one.
    fn add(&mut self, alloc: Global, line: &[u8], feed: u64)
        requires one { feed ≤ 1 }
        requires short { length line.now ≤ 65537 }
        requires few { self.old.bytes < 2 ^ 62 }
        ensures { (lines : List (List ℕ)) (size : ℕ) → Keeps self.old lines size
            → Keeps self.new (lines ++ line.now ∷ []) (size + (length line.now + feed)) }
    {
        self.bytes += line.len() as u64 + feed;
        self.kept = self.kept
            && self.is_small()
            && match Bytes::copy_of(alloc, line) {
                Ok(line) => self.lines.push(line).is_ok(),
                Err(_) => false,
            };
    }
}

/// Reads so many further lines.
pub(crate) fn read_more<L: Link>(alloc: Global, lines: &mut Lines, link: &mut L, count: u32) -> More
    requires { (L.ends link.old).reads.ended ≡ false }
    ensures { Furthers lines.old.ahead (L.ends link.old) count result lines.new.ahead (L.ends link.new) }
{
    let mut further = Further::new(alloc);
    for at in 0..count {
        match lines.next_of(link) {
            Next::Whole => further.add(alloc, lines.line(), 1),
            Next::Last => {
                further.add(alloc, lines.line(), 0);
                return More::Closed {
                    further,
                    all: at + 1 == count,
                };
            }
            Next::End => {
                return More::Closed {
                    further,
                    all: false,
                };
            }
            Next::TooLong => return More::TooLong,
            Next::Failed => return More::Failed,
        }
    }
    More::All(further)
}
