// A line that grows in a fixed room: each method adds as much as there is room for, so a line is composed first and
// goes out by one write. `write!` adds text and numbers, and never fails; a name has a method of its own, since its
// bytes may be no text.
ghost use Rattle.std.specs.Prelude.{◌≡◌, ◌≤◌};

use std::fmt;
use types::Counts;

// The first `length` bytes of the room.
#[derive(Clone, Copy)]
pub struct Line<const N: usize> {
    room: [u8; N],
    length: usize,
    ghost within: { length ≤ N },
}

impl<const N: usize> Line<N> {
    // An empty line.
    pub fn new() -> Self {
        Line {
            room: [0; N],
            length: 0,
        }
    }

    // Makes the line empty again. Its room stays as it is.
    pub fn clear(&mut self)
        ensures { (self.new.length ≡ 0) × (self.new.room ≡ self.old.room) }
    {
        self.length = 0;
    }

    // The bytes so far.
    pub fn as_bytes(&self) -> &[u8] {
        &self.room[..self.length]
    }

    // Adds bytes as they are.
    pub fn add_bytes(&mut self, bytes: &[u8]) {
        self.length = report::add_bytes(&mut self.room, self.length, bytes);
    }

    // Adds a name, its control characters and backslashes escaped, so that it stays within its line.
    pub fn add_name(&mut self, name: &[u8]) {
        self.length = report::add_name(&mut self.room, self.length, name);
    }

    // Adds the line of an answer, with its newline.
    pub fn add_answer(&mut self, refusal: u8, counts: Counts) {
        self.length = report::add_answer(&mut self.room, self.length, refusal, counts);
    }
}

impl<const N: usize> fmt::Write for Line<N> {
    fn write_str(&mut self, text: &str) -> fmt::Result {
        self.add_bytes(text.as_bytes());
        Ok(())
    }
}
