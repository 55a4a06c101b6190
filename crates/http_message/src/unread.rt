//! Bytes that came and belong to no message yet.
ghost use Rattle.std.specs.Prelude.{◌≡◌, ◌+◌, ◌<◌, ◌≤◌, ℕ, List, [], length, take, drop, slice_range, IfOk, OnErr};
ghost use Rattle.std.specs.Io.KnownBytes.{IsAtEnd};
ghost use Rattle.io_retries.specs.Failures.{ReadFailed};
ghost use Rattle.http_message.specs.Readers.{GrowsFrom, NoneCame};

use io_retries::{Source, Tries, read_with_retries};
use std::io;
use std::marker::Model;

/// The most bytes of a head, with the empty lines before it.
pub const MAX_HEAD: usize = 16_384;

/// Bytes that were read and belong to no message yet, at most `MAX_HEAD`.
#[derive(Drop)]
pub struct Unread {
    bytes: [u8; MAX_HEAD],
    start: usize,
    end: usize,
}

impl Model for Unread {
    ghost use Rattle.std.specs.Prelude.{◌≤◌, ℕ, List, slice_range};

    ghost Value = { List ℕ };

    ghost view = { λ u. slice_range u.bytes u.start u.end };

    ghost invariant = { λ u. (u.start ≤ u.end) × (u.end ≤ 16384) };
}

/// Moves the bytes between two places to the first place, and tells how many they are.
fn move_to_start(bytes: &mut [u8], start: usize, end: usize) -> usize
    requires ordered { start ≤ end }
    requires in_range { end ≤ length bytes.old }
    ensures count { result + start ≡ end }
    ensures moved { take result bytes.new ≡ slice_range bytes.old start end }
{
    if start > 0 {
        bytes.copy_within(start..end, 0);
    }
    end - start
}

impl Unread {
    /// No bytes.
    pub fn new() -> Unread
        ensures { result ≡ [] }
    {
        Unread {
            bytes: [0; MAX_HEAD],
            start: 0,
            end: 0,
        }
    }

    /// The bytes, in their order.
    pub fn bytes(&self) -> &[u8]
        ensures value { result.now ≡ self.now }
        ensures few { length self.now ≤ MAX_HEAD }
    {
        &self.bytes[self.start..self.end]
    }

    /// Takes so many bytes off the start, or all.
    pub fn skip(&mut self, count: usize)
        ensures { self.new ≡ drop count self.old }
    {
        self.start += count.min(self.end - self.start);
    }

    /// Reads once, as many bytes as there is room for, and tells how many came. None come at the end of
    /// the input alone.
    pub(crate) fn fill<R: Source>(&mut self, reader: &mut R, tries: &mut Tries) -> io::Result<usize>
        requires { length self.old < MAX_HEAD }
        ensures ok { IfOk result (λ n. GrowsFrom R.Source reader.old reader.new n self.old self.new) }
        ensures end { IfOk result (λ n. n ≡ 0 → IsAtEnd (R.remaining reader.new)) }
        ensures err { OnErr result (NoneCame R.Source reader.old reader.new self.old self.new) }
        ensures fault { OnErr result (ReadFailed R.Source reader.new tries.new) }
    {
        self.end = move_to_start(&mut self.bytes, self.start, self.end);
        self.start = 0;
        let count = read_with_retries(reader, &mut self.bytes[self.end..], tries)?;
        self.end += count;
        Ok(count)
    }
}
