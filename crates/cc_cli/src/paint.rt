//! Colours at a terminal: marks before and behind the head of a text, such as `error` or `judge clean`.
//!
//! The text goes to one sink and the marks to another, and both are the same terminal. So each clause about the text holds with
//! colours too.
ghost use Rattle.std.specs.Prelude.{◌≡◌, ◌<◌, ◌≤◌, ◌-◌, ◌^◌, IfOk, IfSome, List, Some, false, length, ℕ};
ghost use Rattle.std.specs.Io.KnownBytes.{Appends, WriteAppends};
ghost use Rattle.cc_model.specs.Items.{IsPrefix};
ghost use Rattle.cc_io.specs.Device.{failures_after_write};
ghost use Rattle.cc_cli.specs.Paint.{Marks, due_head, end_text, head_at, head_of, is_due, is_painted, mark_text, marks_of, text_of, wants_colours};

use crate::task::Task;
use cc_io::{DeviceFault, Sink, write_bytes};

/// Whether a terminal of the kind `term` has colours, and the value of `NO_COLOR` doesn't forbid them. Each is empty if it isn't set.
pub fn wants_colours(term: &str, no_color: &str) -> bool
    ensures { result ≡ wants_colours term.now no_color.now }
{
    !matches!(term, "" | "dumb") && no_color == ""
}

/// Whether the answer of this task has colours at a terminal: it is the verdict on a log.
pub fn is_painted(task: Task) -> bool
    ensures { result ≡ is_painted task }
{
    matches!(task, Task::Judge(_))
}

/// The meaning of the head of a text.
#[derive(Clone, Copy)]
pub enum Mark {
    /// The name of a fault.
    Fault,
    /// The name of a good verdict.
    Good,
}

/// The head of a text.
#[derive(Clone, Copy)]
pub struct Head {
    /// The number of its bytes.
    pub length: usize,
    /// Its meaning.
    pub mark: Mark,
}

/// The bytes that begin a mark.
fn mark_text(mark: Mark) -> &'static [u8]
    ensures { result.now ≡ mark_text mark }
{
    match mark {
        Mark::Fault => b"\x1b[1;31m",
        Mark::Good => b"\x1b[1;32m",
    }
}

/// The head of a text, if it has one.
fn head_of(text: &[u8]) -> Option<Head>
    ensures value { result ≡ head_of text.now }
    ensures some { IfSome result (λ head. 0 < head.length) }
    ensures within { IfSome result (λ head. head.length ≤ length text.now) }
{
    let (length, mark) = if text.starts_with(b"error: ") {
        (5, Mark::Fault)
    } else if text.starts_with(b"ccq: ") {
        (3, Mark::Fault)
    } else if text.starts_with(b"judge fault: ") {
        (11, Mark::Fault)
    } else if text.starts_with(b"judge clean: ") {
        (11, Mark::Good)
    } else {
        return None;
    };
    Some(Head { length, mark })
}

/// A sink of a text and of the marks around its head.
#[derive(Drop)]
pub struct Painter<T, M> {
    text: T,
    marks: M,
    is_due: bool,
}

impl<T: Sink, M: Sink> Painter<T, M> {
    /// A painter that writes a text to one sink, and marks to the other one if it is to have colours.
    pub fn new(text: T, marks: M, has_colours: bool) -> Painter<T, M>
        ensures text { text_of result ≡ text }
        ensures marks { marks_of result ≡ marks }
        ensures due { is_due result ≡ has_colours }
    {
        Painter {
            text,
            marks,
            is_due: has_colours,
        }
    }

    /// Writes one of the two marks of a head, whether or not that fails.
    fn mark(&mut self, bytes: &[u8])
        ensures marks { (front : List ℕ) × IsPrefix front bytes.now × Appends (M.bytes_written self.old.marks) (M.bytes_written self.new.marks) front }
        ensures text { self.new.text ≡ self.old.text }
        ensures due { self.new.is_due ≡ self.old.is_due }
    {
        if self.marks.failures() < u64::MAX {
            let _outcome = write_bytes(&mut self.marks, bytes);
        }
    }

    /// Writes some bytes of a text that begins with a head, from the front, between marks.
    fn write_head(&mut self, bytes: &[u8], head: Head) -> Result<usize, DeviceFault>
        requires writes { T.write_failures self.old.text < 2 ^ 64 - 1 }
        requires some { 0 < head.length }
        requires within { head.length ≤ length bytes.now }
        ensures bound { IfOk result (λ n. n ≤ length bytes.now) }
        ensures bytes { WriteAppends (T.bytes_written self.old.text) (T.bytes_written self.new.text) result bytes.now }
        ensures failures { T.write_failures self.new.text ≡ failures_after_write (T.write_failures self.old.text) result bytes.now }
        ensures marks { Marks (Some head) (M.bytes_written self.old.marks) (M.bytes_written self.new.marks) }
        ensures due { self.new.is_due ≡ self.old.is_due }
    {
        self.mark(mark_text(head.mark));
        let taken = self.text.write_some(&bytes[..head.length]);
        self.mark(b"\x1b[0m");
        taken
    }
}

impl<T: Sink, M: Sink> Sink for Painter<T, M> {
    ghost bytes_written = { λ p. T.bytes_written (text_of p) };

    ghost write_failures = { λ p. T.write_failures (text_of p) };

    fn write_some(&mut self, bytes: &[u8]) -> Result<usize, DeviceFault>
        requires { T.write_failures (text_of self.old) < 2 ^ 64 - 1 }
        ensures bound { IfOk result (λ n. n ≤ length bytes.now) }
        ensures bytes { WriteAppends (T.bytes_written (text_of self.old)) (T.bytes_written (text_of self.new)) result bytes.now }
        ensures failures { T.write_failures (text_of self.new) ≡ failures_after_write (T.write_failures (text_of self.old)) result bytes.now }
        ensures marks { Marks (due_head (is_due self.old) bytes.now) (M.bytes_written (marks_of self.old)) (M.bytes_written (marks_of self.new)) }
        ensures once { is_due self.new ≡ false }
    {
        if self.is_due {
            self.is_due = false;
            if let Some(head) = head_of(bytes) {
                return self.write_head(bytes, head);
            }
        }
        self.text.write_some(bytes)
    }

    fn failures(&self) -> u64 {
        self.text.failures()
    }
}
