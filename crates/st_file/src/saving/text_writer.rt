//! Writes JSON texts to a device, piece by piece.
ghost use Rattle.std.specs.Prelude.{◌≡◌, ◌≤◌, ◌<◌, ◌∷◌, [], ◌++◌, true, false, take};
ghost use Rattle.std.specs.Char.{digit_char};
ghost use Rattle.std.specs.Bool.{OnTrue, OnFalse};
ghost use Rattle.std.specs.Str.{is_utf8};
ghost use Rattle.json.specs.Print.{escape, escape_byte, escape_letter, quoted};
ghost use Rattle.serde_json.specs.Data.{boolean, number};
ghost use Rattle.serde_json.specs.Find.{of_integer};
ghost use Rattle.serde_json.specs.Written.{comma_if, compact_text};
ghost use Rattle.st_wire.specs.Replies.{whole as whole_number};
ghost use Rattle.st_file.specs.TextWriters.{Ends, Puts, Sends, Stores};

use st_wire::streams::{Output, WriteFailed, write_all};
use std::alloc::Global;

/// The most bytes that are held back.
const HELD: usize = 1 << 16;

/// A writer that holds bytes back until there are many. Once its device has failed, it passes nothing on any more.
#[derive(Drop)]
pub struct TextWriter {
    held: Vec<u8>,
    /// How many bytes were put, if the device has not failed.
    count: u64,
    has_failed: bool,
}

/// Whether a text stands for itself between quotes.
fn is_plain(text: &[u8]) -> bool
    ensures { OnTrue result (escape text.now ≡ text.now) }
{
    for byte in text {
        if *byte < b' ' || *byte == b'"' || *byte == b'\\' {
            return false;
        }
    }
    true
}

/// The digit of sixteen with this value.
fn digit(value: u8) -> u8
    requires { value < 16 }
    ensures { result ≡ digit_char value }
{
    if value < 10 {
        b'0' + value
    } else {
        b'a' - 10 + value
    }
}

/// The letter that stands for a byte behind a backslash; 0 if none does.
fn letter(byte: u8) -> u8
    ensures { result ≡ escape_letter byte }
{
    match byte {
        b'"' | b'\\' => byte,
        8 => b'b',
        12 => b'f',
        b'\n' => b'n',
        b'\r' => b'r',
        b'\t' => b't',
        _ => 0,
    }
}

/// What stands for a byte between quotes, and how long it is.
fn escaped(byte: u8) -> ([u8; 6], usize)
    ensures text { take result.1 result.0 ≡ escape_byte byte }
    ensures bound { result.1 ≤ 6 }
{
    let letter = letter(byte);
    if letter > 0 {
        return ([b'\\', letter, 0, 0, 0, 0], 2);
    }
    if byte < b' ' {
        let (high, low) = (digit(byte / 16), digit(byte % 16));
        return ([b'\\', b'u', b'0', b'0', high, low], 6);
    }
    ([byte, 0, 0, 0, 0, 0], 1)
}

impl TextWriter {
    /// A writer that holds nothing. If memory is short, it will pass on each piece at once.
    pub fn new(alloc: Global) -> TextWriter
        ensures nothing { (result.held.items ≡ []) × (result.count ≡ 0) }
        ensures unfailed { result.has_failed ≡ false }
    {
        let held = match Vec::with_capacity(alloc, HELD) {
            Ok(held) => held,
            Err(_) => Vec::new(alloc),
        };
        TextWriter {
            held,
            count: 0,
            has_failed: false,
        }
    }

    /// Holds bytes back, if there is room for them.
    fn hold(&mut self, bytes: &[u8]) -> bool
        ensures held { OnTrue result (self.new.held.items ≡ self.old.held.items ++ bytes.now) }
        ensures left { OnFalse result (self.new.held.items ≡ self.old.held.items) }
        ensures same { (self.new.has_failed ≡ self.old.has_failed) × (self.new.count ≡ self.old.count) }
    {
        if self.held.capacity() - self.held.len() < bytes.len() {
            return false;
        }
        self.held.extend_from_slice(bytes).is_ok()
    }

    /// Passes on what is held.
    fn pass_on<O: Output>(&mut self, output: &mut O)
        requires { self.old.has_failed ≡ false }
        ensures stores { Stores O.contents O.failures O.flushes output.old output.new self.old self.new [] }
        ensures nothing { self.new.has_failed ≡ false → self.new.held.items ≡ [] }
        ensures same { self.new.count ≡ self.old.count }
    {
        match write_all(output, &self.held) {
            Ok(()) => self.held.clear(),
            Err(_) => self.has_failed = true,
        }
    }

    /// Passes bytes on, where none are held.
    fn pass<O: Output>(&mut self, output: &mut O, bytes: &[u8])
        requires unfailed { self.old.has_failed ≡ false }
        requires nothing { self.old.held.items ≡ [] }
        ensures stores { Stores O.contents O.failures O.flushes output.old output.new self.old self.new bytes.now }
        ensures same { self.new.count ≡ self.old.count }
    {
        match write_all(output, bytes) {
            Ok(()) => {}
            Err(_) => self.has_failed = true,
        }
    }

    /// Holds bytes back, or passes them on.
    fn store<O: Output>(&mut self, output: &mut O, bytes: &[u8])
        requires { self.old.has_failed ≡ false }
        ensures stores { Stores O.contents O.failures O.flushes output.old output.new self.old self.new bytes.now }
        ensures same { self.new.count ≡ self.old.count }
    {
        if self.hold(bytes) {
            return;
        }
        self.pass_on(output);
        if self.has_failed || self.hold(bytes) {
            return;
        }
        self.pass(output, bytes);
    }

    /// Takes it that the device is full.
    fn refuse<O: Output>(&mut self, output: &mut O)
        requires { self.old.has_failed ≡ false }
        ensures stores { Stores O.contents O.failures O.flushes output.old output.new self.old self.new [] }
        ensures failed { self.new.has_failed ≡ true }
    {
        match output.write(&[]) {
            Ok(_) => unreachable!(),
            Err(_) => self.has_failed = true,
        }
    }

    /// Puts bytes behind those that were put before. With 2^64 bytes the device counts as full.
    fn send<O: Output>(&mut self, output: &mut O, bytes: &[u8])
        ensures { Sends O.contents O.failures O.flushes output.old output.new self.old self.new bytes.now }
    {
        if self.has_failed {
            return;
        }
        match self.count.checked_add(bytes.len() as u64) {
            Some(count) => {
                self.count = count;
                self.store(output, bytes);
            }
            None => self.refuse(output),
        }
    }

    /// Passes on what is held, and flushes the device. The answer is how many bytes were put.
    pub fn finish<O: Output>(self, output: &mut O) -> Result<u64, WriteFailed>
        ensures { Ends O.contents O.failures O.flushes output.old output.new self result }
    {
        if self.has_failed {
            return Err(WriteFailed);
        }
        match write_all(output, &self.held) {
            Ok(()) => match output.flush() {
                Ok(()) => Ok(self.count),
                Err(failed) => Err(failed),
            },
            Err(failed) => Err(failed),
        }
    }

    /// Puts a text.
    pub fn put<O: Output>(&mut self, output: &mut O, text: &str)
        ensures { Puts O.contents O.failures O.flushes output.old output.new self.old self.new text.now }
    {
        self.send(output, text.as_bytes());
    }

    /// Puts what stands between quotes for a text, byte by byte.
    fn escape<O: Output>(&mut self, output: &mut O, text: &[u8])
        ensures { Sends O.contents O.failures O.flushes output.old output.new self.old self.new (escape text.now) }
    {
        for byte in text {
            let (bytes, len) = escaped(*byte);
            self.send(output, &bytes[..len]);
        }
    }

    /// Puts what stands between quotes for a text.
    fn inside<O: Output>(&mut self, output: &mut O, text: &[u8])
        ensures { Sends O.contents O.failures O.flushes output.old output.new self.old self.new (escape text.now) }
    {
        if is_plain(text) {
            self.send(output, text);
        } else {
            self.escape(output, text);
        }
    }

    /// Puts a text between quotes.
    pub fn text<O: Output>(&mut self, output: &mut O, text: &[u8])
        requires { is_utf8 text.now ≡ true }
        ensures { Puts O.contents O.failures O.flushes output.old output.new self.old self.new (quoted text.now) }
    {
        self.send(output, b"\"");
        self.inside(output, text);
        self.send(output, b"\"");
    }

    /// Puts a word between quotes.
    pub fn word<O: Output>(&mut self, output: &mut O, word: &str)
        ensures { Puts O.contents O.failures O.flushes output.old output.new self.old self.new (quoted word.now) }
    {
        self.text(output, word.as_bytes());
    }

    /// Puts a whole number.
    pub fn whole<O: Output>(&mut self, output: &mut O, n: u64)
        ensures { Puts O.contents O.failures O.flushes output.old output.new self.old self.new (compact_text (whole_number n)) }
    {
        let mut buffer = itoa::Buffer::new();
        self.put(output, buffer.format(n));
    }

    /// Puts a whole number with a sign.
    pub fn integer<O: Output>(&mut self, output: &mut O, n: i64)
        ensures { Puts O.contents O.failures O.flushes output.old output.new self.old self.new (compact_text (number (of_integer n))) }
    {
        let mut buffer = itoa::Buffer::new();
        self.put(output, buffer.format(n));
    }

    /// Puts `true` or `false`.
    pub fn truth<O: Output>(&mut self, output: &mut O, truth: bool)
        ensures { Puts O.contents O.failures O.flushes output.old output.new self.old self.new (compact_text (boolean truth)) }
    {
        self.put(output, if truth { "true" } else { "false" });
    }

    /// Puts a comma, if something stands before.
    pub fn comma<O: Output>(&mut self, output: &mut O, later: bool)
        ensures { Puts O.contents O.failures O.flushes output.old output.new self.old self.new (comma_if later) }
    {
        self.put(output, if later { "," } else { "" });
    }

    /// Puts a key and its colon, and a comma before it if another member stands before.
    pub fn key<O: Output>(&mut self, output: &mut O, later: bool, key: &str)
        ensures { Puts O.contents O.failures O.flushes output.old output.new self.old self.new (comma_if later ++ (quoted key.now ++ 58 ∷ [])) }
    {
        self.comma(output, later);
        self.word(output, key);
        self.put(output, ":");
    }
}
