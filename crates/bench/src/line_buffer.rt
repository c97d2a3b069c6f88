// The line that is being read.
ghost use Rattle.std.specs.Prelude.{◌≡◌, ◌≤◌, ℕ, List, [], Some, None, MatchOption, length};
ghost use Rattle.std.specs.declared.option.Option.{Option};
ghost use Rattle.bench.specs.Buffer.{Buffered, text_in, within, with_bytes, is_blank};

use std::marker::Model;

// The bytes that are lent for a line, and how many hold the line so far: no number where it is too long for them.
#[derive(Drop)]
pub struct LineBuffer<'a> {
    bytes: &'a mut [u8],
    held: Option<usize>,
}

impl<'a> Model for LineBuffer<'a> {
    ghost Value = { Buffered };

    ghost view = { λ l. record { cap = length l.bytes.now; line = text_in l.held l.bytes.now } };

    ghost invariant = { λ l. within (length l.bytes.now) l.held };
}

impl<'a> LineBuffer<'a> {
    // A line of which nothing is read.
    pub fn new(bytes: &'a mut [u8]) -> LineBuffer<'a>
        ensures cap { result.cap ≡ length bytes.old }
        ensures line { result.line ≡ Some [] }
    {
        LineBuffer {
            bytes,
            held: Some(0),
        }
    }

    // The next line.
    pub fn clear(&mut self)
        ensures cap { self.new.cap ≡ self.old.cap }
        ensures line { self.new.line ≡ Some [] }
    {
        self.held = Some(0);
    }

    // More of the line.
    pub fn push_all(&mut self, part: &[u8])
        ensures cap { self.new.cap ≡ self.old.cap }
        ensures line { self.new.line ≡ with_bytes self.old.cap self.old.line part.now }
    {
        let n = match self.held {
            Some(n) => n,
            None => return,
        };
        if self.bytes.len() - n < part.len() {
            self.held = None;
            return;
        }
        let end = n + part.len();
        self.held = Some(end);
        self.bytes[n..end].copy_from_slice(part);
    }

    pub fn is_empty(&self) -> bool
        ensures { result ≡ is_blank self.now.line }
    {
        match self.text() {
            Some(text) => text.is_empty(),
            None => false,
        }
    }

    // The line, unless it is too long.
    pub fn text(&self) -> Option<&[u8]>
        ensures { MatchOption result (self.now.line ≡ None) (λ t. self.now.line ≡ Some t.now) }
    {
        match self.held {
            Some(n) => Some(&self.bytes[..n]),
            None => None,
        }
    }
}
