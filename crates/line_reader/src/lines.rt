// A reader of lines through a buffer of its own.
ghost use Rattle.std.specs.Prelude.{◌≡◌, ◌<◌, ◌≤◌, ◌+◌, ◌-◌, ◌++◌, ◌∷◌, [], ℕ, List, length, take, drop, IfOk, false};
ghost use Rattle.std.specs.Prelude.{MatchBool};
ghost use Rattle.dict_io.specs.Outside.{HasCause, is_end};
ghost use Rattle.dict_value.specs.Split.{Lacks};
ghost use Rattle.dict_value.specs.declared.letters.TheConstants.{LINE_FEED};
ghost use Rattle.line_reader.specs.Reading.{Fills, IsLine, IsNext, ReadsLine, ReadsAt, meets_end};

use dict_io::{Got, Link, Source};
use dict_value::letters::LINE_FEED;
use dict_value::{NoMemory, split_at_byte};
use std::alloc::Global;
use std::marker::Model;

#[cfg(test)]
mod tests;

/// The room of the buffer: one byte more than the longest line without its line feed.
pub const ROOM: usize = 65_537;

/// What was met.
#[derive(Clone, Copy, Debug, PartialEq, Eq)]
pub enum Next {
    /// A line that a line feed ended.
    Whole,
    /// At the end of the source, bytes without a line feed.
    Last,
    /// The end, with no byte before it.
    End,
    TooLong,
    Failed,
}

/// A reader: the line that it read last, and the bytes that it has read ahead.
#[derive(Drop)]
pub struct Lines {
    buf: Vec<u8>,
    line_from: usize,
    line_to: usize,
    from: usize,
    to: usize,
}

impl Model for Lines {
    ghost use Rattle.std.specs.Prelude.{◌≡◌, ◌≤◌, ◌-◌, length, take, drop};
    ghost use Rattle.line_reader.specs.Reading.{Held};

    ghost Value = { Held };

    ghost view = { λ r. record {
      line = take (r.line_to - r.line_from) (drop r.line_from r.buf.items);
      ahead = take (r.to - r.from) (drop r.from r.buf.items);
    } };

    ghost invariant = { λ r. (length r.buf.items ≡ 65537) × (r.line_from ≤ r.line_to) × (r.line_to ≤ 65537)
        × (r.from ≤ r.to) × (r.to ≤ 65537) };
}

/// Moves a part to the front.
fn to_front(buf: &mut Vec<u8>, from: usize, to: usize)
    requires order { from ≤ to }
    requires within { to ≤ length buf.old.items }
    ensures front { take (to - from) buf.new.items ≡ take (to - from) (drop from buf.old.items) }
    ensures len { length buf.new.items ≡ length buf.old.items }
{
    if from > 0 {
        buf.copy_within(from..to, 0);
    }
}

/// Reads into the buffer from a place on.
fn read_at<S: Source>(buf: &mut [u8], at: usize, source: &mut S) -> Got
    requires room { at < length buf.old }
    requires open { S.ended source.old ≡ false }
    ensures bytes { ReadsAt (S.left source.old) (take at buf.old) at result (S.left source.new) buf.new }
    ensures cause { HasCause (S.read_faults source.old) (S.read_faults source.new) (result ≡ Got.Failed) }
    ensures end { S.ended source.new ≡ is_end result }
    ensures kept { S.kept_by_read source.new ≡ S.kept_by_read source.old }
{
    source.read(&mut buf[at..])
}

impl Lines {
    /// An empty reader; its buffer is all the memory that it takes.
    pub fn new(alloc: Global) -> Result<Lines, NoMemory>
        ensures { IfOk result (λ r. (r.line ≡ []) × (r.ahead ≡ [])) }
    {
        match Vec::from_elem(alloc, 0u8, ROOM) {
            Ok(buf) => Ok(Lines {
                buf,
                line_from: 0,
                line_to: 0,
                from: 0,
                to: 0,
            }),
            Err(_) => Err(NoMemory),
        }
    }

    /// The line that was read last, without its line feed.
    pub fn line(&self) -> &[u8]
        ensures line { result.now ≡ self.now.line }
        ensures short { length result.now ≤ 65537 }
    {
        &self.buf[self.line_from..self.line_to]
    }

    /// Cuts the first whole line off the bytes read ahead.
    fn cut(&mut self) -> bool
        ensures { MatchBool result
            (IsLine self.new.line × (self.old.ahead ≡ self.new.line ++ LINE_FEED ∷ self.new.ahead))
            ((self.new ≡ self.old) × Lacks LINE_FEED self.old.ahead) }
    {
        match split_at_byte(&self.buf[self.from..self.to], LINE_FEED) {
            Some((line, _)) => {
                let size = line.len();
                self.line_from = self.from;
                self.line_to = self.from + size;
                self.from += size + 1;
                true
            }
            None => false,
        }
    }

    /// Makes all the bytes read ahead the line, and tells whether there are any.
    fn cut_rest(&mut self) -> bool
        ensures line { self.new.line ≡ self.old.ahead }
        ensures none { self.new.ahead ≡ [] }
        ensures some { MatchBool result (0 < length self.old.ahead) (self.old.ahead ≡ []) }
    {
        self.line_from = self.from;
        self.line_to = self.to;
        self.from = self.to;
        self.line_from < self.line_to
    }

    fn is_full(&self) -> bool
        ensures { MatchBool result (length self.now.ahead ≡ 65537) (length self.now.ahead < 65537) }
    {
        self.to - self.from == ROOM
    }

    /// Reads more bytes ahead.
    fn fill<S: Source>(&mut self, source: &mut S) -> Got
        requires room { length self.old.ahead < 65537 }
        requires open { S.ended source.old ≡ false }
        ensures bytes { Fills (S.left source.old) self.old.ahead result (S.left source.new) self.new.ahead }
        ensures cause { HasCause (S.read_faults source.old) (S.read_faults source.new) (result ≡ Got.Failed) }
        ensures end { S.ended source.new ≡ is_end result }
        ensures kept { S.kept_by_read source.new ≡ S.kept_by_read source.old }
    {
        to_front(&mut self.buf, self.from, self.to);
        self.to -= self.from;
        self.from = 0;
        self.line_from = 0;
        self.line_to = 0;
        let got = read_at(&mut self.buf, self.to, source);
        if let Got::Bytes(count) = &got {
            self.to += *count;
        }
        got
    }

    /// Reads the next line.
    pub fn next<S: Source>(&mut self, source: &mut S) -> Next
        requires { S.ended source.old ≡ false }
        ensures next { IsNext self.old.ahead (S.left source.old) result self.new (S.left source.new) }
        ensures ended { S.ended source.new ≡ meets_end result }
        ensures cause { HasCause (S.read_faults source.old) (S.read_faults source.new) (result ≡ Next.Failed) }
        ensures kept { S.kept_by_read source.new ≡ S.kept_by_read source.old }
    {
        loop {
            if self.cut() {
                return Next::Whole;
            }
            if self.is_full() {
                return Next::TooLong;
            }
            match self.fill(source) {
                Got::Bytes(_) => {}
                Got::End => {
                    return if self.cut_rest() {
                        Next::Last
                    } else {
                        Next::End
                    };
                }
                Got::Failed => return Next::Failed,
            }
        }
    }

    /// Reads the next line of a link.
    pub fn next_of<L: Link>(&mut self, link: &mut L) -> Next
        requires { (L.ends link.old).reads.ended ≡ false }
        ensures { ReadsLine self.old.ahead (L.ends link.old) result self.new (L.ends link.new) }
    {
        self.next(link)
    }
}
