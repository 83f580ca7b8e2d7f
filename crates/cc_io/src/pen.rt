//! Writing a text piece by piece, in blocks, with no memory.
ghost use Rattle.std.specs.Prelude.{◌≡◌, ◌<◌, ◌-◌, ◌^◌, ◌++◌, [], false, decimal, is_err};
ghost use Rattle.std.specs.Bool.{OnTrue, OnFalse};
ghost use Rattle.cc_io.specs.Written.{Writes, GoesOn, Pens, desk, word_text};

use crate::Sink;
use arrayvec::ArrayVec;
use itoa::Buffer;
use std::marker::Model;

/// A write failed, or took none of some bytes.
#[derive(Clone, Copy, Debug, PartialEq, Eq)]
pub struct WriteFault;

/// How many bytes a pen holds back. A text of many small pieces goes out in blocks of more than half of this.
const BLOCK: usize = 8192;

/// Writes all of the bytes, and stops at the first write that fails or takes nothing.
pub fn write_bytes<W: Sink>(sink: &mut W, bytes: &[u8]) -> Result<(), WriteFault>
    requires { W.write_failures sink.old < 2 ^ 64 - 1 }
    ensures { Writes (is_err result) (W.bytes_written sink.old) (W.bytes_written sink.new)
        (W.write_failures sink.old) (W.write_failures sink.new) bytes.now }
{
    let mut rest = bytes;
    while !rest.is_empty() {
        match sink.write_some(rest) {
            Ok(0) | Err(_) => return Err(WriteFault),
            Ok(n) => rest = &rest[n..],
        }
    }
    Ok(())
}

/// A writer of texts over one sink, which is lent to each call. It gathers small pieces into blocks of some thousand
/// bytes. After a failed write it writes nothing more.
#[derive(Drop)]
pub struct Pen {
    block: ArrayVec<u8, BLOCK>,
    failed: bool,
}

impl Model for Pen {
    ghost use Rattle.cc_io.specs.Written.{Ink};

    ghost Value = { Ink };

    ghost view = { λ p. record { held = p.block.items; failed = p.failed } };
}

impl Pen {
    /// A pen that holds nothing back.
    pub fn new() -> Pen
        ensures { result ≡ record { held = []; failed = false } }
    {
        Pen {
            block: ArrayVec::new(),
            failed: false,
        }
    }

    /// Goes on by the bytes.
    pub fn text<W: Sink>(&mut self, sink: &mut W, bytes: &[u8])
        requires { self.old.failed ≡ false → W.write_failures sink.old < 2 ^ 64 - 1 }
        ensures { Pens (desk self.old (W.bytes_written sink.old) (W.write_failures sink.old))
            (desk self.new (W.bytes_written sink.new) (W.write_failures sink.new)) bytes.now }
    {
        if self.hold(bytes) {
            return;
        }
        self.flush(sink);
        if self.hold(bytes) {
            return;
        }
        self.pass_on(sink, bytes);
    }

    /// Holds the bytes back, if there is room for them.
    fn hold(&mut self, bytes: &[u8]) -> bool
        ensures held { OnTrue result (self.new ≡ record self.old { held = self.old.held ++ bytes.now }) }
        ensures same { OnFalse result (self.new ≡ self.old) }
    {
        self.block.try_extend_from_slice(bytes).is_ok()
    }

    /// Writes the bytes out at once, if nothing is held back.
    fn pass_on<W: Sink>(&mut self, sink: &mut W, bytes: &[u8])
        requires writes { self.old.failed ≡ false → W.write_failures sink.old < 2 ^ 64 - 1 }
        requires empty { self.old.held ≡ [] }
        ensures { Pens (desk self.old (W.bytes_written sink.old) (W.write_failures sink.old))
            (desk self.new (W.bytes_written sink.new) (W.write_failures sink.new)) bytes.now }
    {
        if !self.failed {
            self.failed = write_bytes(sink, bytes).is_err();
        }
    }

    /// Goes on by the bytes, and then a number in decimal.
    pub fn word<W: Sink>(&mut self, sink: &mut W, bytes: &[u8], n: u64)
        requires { self.old.failed ≡ false → W.write_failures sink.old < 2 ^ 64 - 1 }
        ensures { Pens (desk self.old (W.bytes_written sink.old) (W.write_failures sink.old))
            (desk self.new (W.bytes_written sink.new) (W.write_failures sink.new)) (word_text bytes.now n) }
    {
        self.text(sink, bytes);
        self.number(sink, n);
    }

    fn number<W: Sink>(&mut self, sink: &mut W, n: u64)
        requires { self.old.failed ≡ false → W.write_failures sink.old < 2 ^ 64 - 1 }
        ensures { Pens (desk self.old (W.bytes_written sink.old) (W.write_failures sink.old))
            (desk self.new (W.bytes_written sink.new) (W.write_failures sink.new)) (decimal n) }
    {
        let mut digits = Buffer::new();
        self.text(sink, digits.format(n).as_bytes());
    }

    /// Writes out what is held back.
    fn flush<W: Sink>(&mut self, sink: &mut W)
        requires { self.old.failed ≡ false → W.write_failures sink.old < 2 ^ 64 - 1 }
        ensures pens { Pens (desk self.old (W.bytes_written sink.old) (W.write_failures sink.old))
            (desk self.new (W.bytes_written sink.new) (W.write_failures sink.new)) [] }
        ensures empty { self.new.held ≡ [] }
    {
        if !self.failed {
            self.failed = write_bytes(sink, self.block.as_slice()).is_err();
        }
        self.block.clear();
    }

    /// Writes out what is held back, and returns whether all of the text went out.
    pub fn finish<W: Sink>(mut self, sink: &mut W) -> Result<(), WriteFault>
        requires { self.failed ≡ false → W.write_failures sink.old < 2 ^ 64 - 1 }
        ensures { GoesOn self.failed (is_err result) self.held [] (W.bytes_written sink.old) (W.bytes_written sink.new)
            (W.write_failures sink.old) (W.write_failures sink.new) [] }
    {
        self.flush(sink);
        if self.failed { Err(WriteFault) } else { Ok(()) }
    }
}
