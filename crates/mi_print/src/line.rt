//! A line of text that takes no memory.
ghost use Rattle.std.specs.Prelude.{◌≡◌, ◌+◌, ◌≤◌, ◌++◌, [], ◌∷◌, length, decimal};
ghost use Rattle.std.specs.Fmt.{signed_decimal};
ghost use Rattle.mi_outside.specs.Outside.{Sends};

use arrayvec::ArrayString;
use itoa::Buffer;
use mi_outside::{Sink, SinkFailed, write_all};
use std::marker::Model;

/// A line of at most 1,024 bytes: fields with commas between them.
#[derive(Drop)]
pub struct Line {
    text: ArrayString<1024>,
}

impl Model for Line {
    ghost use Rattle.std.specs.Prelude.{List, ℕ};

    ghost Value = { List ℕ };

    ghost view = { λ l. l.text.bytes };
}

impl Line {
    /// A line that begins with this field.
    pub fn new(first: &str) -> Line
        requires { length first.now ≤ 30 }
        ensures { result ≡ first.now }
    {
        let mut text = ArrayString::new();
        text.push_str(first);
        Line { text }
    }

    /// A line that begins with this number.
    pub fn of_number(first: u64) -> Line
        ensures line { result ≡ decimal first }
        ensures short { length result ≤ 20 }
    {
        let mut text = ArrayString::new();
        text.push_str(Buffer::new().format(first));
        Line { text }
    }

    /// Adds a number's field.
    pub fn number(&mut self, value: u64)
        requires { length self.old ≤ 1000 }
        ensures line { self.new ≡ self.old ++ 44 ∷ decimal value }
        ensures short { length self.new ≤ length self.old + 21 }
    {
        self.text.push_str(",");
        self.text.push_str(Buffer::new().format(value));
    }

    /// Adds a coordinate's field.
    pub fn coordinate(&mut self, value: i32)
        requires { length self.old ≤ 1000 }
        ensures line { self.new ≡ self.old ++ 44 ∷ signed_decimal value }
        ensures short { length self.new ≤ length self.old + 12 }
    {
        self.text.push_str(",");
        self.text.push_str(Buffer::new().format(value));
    }

    /// Adds a field.
    pub fn field(&mut self, field: &str)
        requires { length self.old + length field.now ≤ 1000 }
        ensures { self.new ≡ self.old ++ 44 ∷ field.now }
    {
        self.text.push_str(",");
        self.text.push_str(field);
    }

    /// Sends the line and its line feed. It takes no memory.
    pub fn send<S: Sink>(mut self, out: &mut S) -> Result<(), SinkFailed>
        requires { length self ≤ 1000 }
        ensures { Sends (S.state out.old) (S.state out.new) (self ++ 10 ∷ []) result }
    {
        self.text.push_str("\n");
        write_all(out, self.text.as_bytes())
    }
}
