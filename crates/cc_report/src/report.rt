//! The report of a run.
ghost use Rattle.std.specs.Prelude.{◌≡◌, ◌<◌, ◌^◌, ◌-◌, false, is_err, slice_get};
ghost use Rattle.cc_model.specs.Body.{words_of};
ghost use Rattle.cc_model.specs.HistoryRoom.{lists};
ghost use Rattle.cc_io.specs.Written.{Writes, Pens, desk};
ghost use Rattle.cc_report.specs.Report.{pass_text, words_text, call_text, item_text, answer_text, caller_in, caller_text, line_text, lines_text, groups_text, verdict_text, report_text};

use cc_audit::Verdict;
use cc_io::{Pen, Sink, WriteFault};
use cc_model::{
    Answer, Body, Call, CloseAnswer, Entry, History, Item, Pass, SendAnswer, TakeAnswer,
};

/// A history, and the verdict on it.
#[derive(Clone, Copy)]
pub struct Report<'a> {
    /// The version of the format, that of the plan. Version 2 names the group of each call of a receiver; any other is of
    /// one group, and doesn't.
    pub version: u32,
    /// The whole history, calls without an answer too.
    pub history: &'a History,
    /// The verdict on the receipts of the history.
    pub verdict: Verdict,
}

/// The caller in a line.
#[derive(Clone, Copy)]
enum Caller {
    Sender,
    Receiver,
    /// A receiver of the group with this number, from 1.
    ReceiverOf(u64),
}

/// Writes the text of the report, and stops at the first write that fails.
#[tactic(auto, using(cc_io::proofs::Writing::all_out))]
pub fn write_report<W: Sink>(sink: &mut W, report: &Report<'_>) -> Result<(), WriteFault>
    requires { W.write_failures sink.old < 2 ^ 64 - 1 }
    ensures { Writes (is_err result) (W.bytes_written sink.old) (W.bytes_written sink.new)
        (W.write_failures sink.old) (W.write_failures sink.new)
        (report_text report.now.version (lists report.now.history.now) report.now.verdict) }
{
    let mut pen = Pen::new();
    write_parts(sink, &mut pen, report);
    pen.finish(sink)
}

/// Writes the line of a verdict alone, and stops at the first write that fails.
#[tactic(auto, using(cc_io::proofs::Writing::all_out))]
pub fn write_verdict<W: Sink>(sink: &mut W, verdict: Verdict) -> Result<(), WriteFault>
    requires { W.write_failures sink.old < 2 ^ 64 - 1 }
    ensures { Writes (is_err result) (W.bytes_written sink.old) (W.bytes_written sink.new)
        (W.write_failures sink.old) (W.write_failures sink.new) (verdict_text verdict) }
{
    let mut pen = Pen::new();
    write_verdict_line(sink, &mut pen, verdict);
    pen.finish(sink)
}

/// The lines of the senders' calls, those of the receivers' calls, and the line of the verdict.
fn write_parts<W: Sink>(sink: &mut W, pen: &mut Pen, report: &Report<'_>)
    requires { pen.old.failed ≡ false → W.write_failures sink.old < 2 ^ 64 - 1 }
    ensures { Pens (desk pen.old (W.bytes_written sink.old) (W.write_failures sink.old))
        (desk pen.new (W.bytes_written sink.new) (W.write_failures sink.new))
        (report_text report.now.version (lists report.now.history.now) report.now.verdict) }
{
    let sends = report.history.sends();
    write_lines(sink, pen, Caller::Sender, sends.calls(), sends.answers());
    write_groups(sink, pen, report.version, report.history);
    write_verdict_line(sink, pen, report.verdict)
}

/// The lines of one group after another.
#[tactic(auto, using(crate::proofs::Lines::none, crate::proofs::Lines::all))]
fn write_groups<W: Sink>(sink: &mut W, pen: &mut Pen, version: u32, history: &History)
    requires { pen.old.failed ≡ false → W.write_failures sink.old < 2 ^ 64 - 1 }
    ensures { Pens (desk pen.old (W.bytes_written sink.old) (W.write_failures sink.old))
        (desk pen.new (W.bytes_written sink.new) (W.write_failures sink.new))
        (groups_text version (lists history.now).takes) }
{
    for group in 0..history.groups() {
        let caller = caller_in(version, group);
        let takes = history.takes(group);
        write_lines(sink, pen, caller, takes.calls(), takes.answers());
    }
}

/// The callers in the lines of a group, from 0.
fn caller_in(version: u32, group: usize) -> Caller
    requires { group < 2 ^ 64 - 1 }
    ensures { result ≡ caller_in version group }
{
    if version == 2 {
        Caller::ReceiverOf(group as u64 + 1)
    } else {
        Caller::Receiver
    }
}

/// A line for each call, numbered from 0.
#[tactic(auto, using(crate::proofs::Lines::none, crate::proofs::Lines::all))]
fn write_lines<W: Sink>(
    sink: &mut W,
    pen: &mut Pen,
    caller: Caller,
    calls: &[Entry],
    answers: &[Answer],
)
    requires { pen.old.failed ≡ false → W.write_failures sink.old < 2 ^ 64 - 1 }
    ensures { Pens (desk pen.old (W.bytes_written sink.old) (W.write_failures sink.old))
        (desk pen.new (W.bytes_written sink.new) (W.write_failures sink.new))
        (lines_text caller (record { calls = calls.now; answers = answers.now })) }
{
    for (i, entry) in calls.iter().enumerate() {
        write_line(sink, pen, caller, i as u64, *entry, answer_at(answers, i));
    }
}

/// The answer of the call at a place, unless it is pending.
fn answer_at(answers: &[Answer], i: usize) -> Option<Answer>
    ensures { result ≡ slice_get answers.now i }
{
    answers.get(i).copied()
}

#[tactic(auto, unfolding(crate::specs::Report::line_text))]
fn write_line<W: Sink>(
    sink: &mut W,
    pen: &mut Pen,
    caller: Caller,
    number: u64,
    entry: Entry,
    answer: Option<Answer>,
)
    requires { pen.old.failed ≡ false → W.write_failures sink.old < 2 ^ 64 - 1 }
    ensures { Pens (desk pen.old (W.bytes_written sink.old) (W.write_failures sink.old))
        (desk pen.new (W.bytes_written sink.new) (W.write_failures sink.new))
        (line_text caller number entry answer) }
{
    write_caller(sink, pen, caller);
    pen.word(sink, b" ", number);
    pen.text(sink, b" ");
    write_pass(sink, pen, entry.pass);
    pen.text(sink, b" ");
    write_call(sink, pen, entry.call);
    pen.text(sink, b" -> ");
    write_answer(sink, pen, answer);
    pen.text(sink, b"\n")
}

#[tactic(auto, unfolding(crate::specs::Report::caller_text))]
fn write_caller<W: Sink>(sink: &mut W, pen: &mut Pen, caller: Caller)
    requires { pen.old.failed ≡ false → W.write_failures sink.old < 2 ^ 64 - 1 }
    ensures { Pens (desk pen.old (W.bytes_written sink.old) (W.write_failures sink.old))
        (desk pen.new (W.bytes_written sink.new) (W.write_failures sink.new))
        (caller_text caller) }
{
    match caller {
        Caller::Sender => pen.text(sink, b"E"),
        Caller::Receiver => pen.text(sink, b"D"),
        Caller::ReceiverOf(group) => pen.word(sink, b"D ", group),
    }
}

#[tactic(auto, unfolding(crate::specs::Report::pass_text))]
fn write_pass<W: Sink>(sink: &mut W, pen: &mut Pen, pass: Pass)
    requires { pen.old.failed ≡ false → W.write_failures sink.old < 2 ^ 64 - 1 }
    ensures { Pens (desk pen.old (W.bytes_written sink.old) (W.write_failures sink.old))
        (desk pen.new (W.bytes_written sink.new) (W.write_failures sink.new))
        (pass_text pass) }
{
    match pass {
        Pass::Sender(s) => pen.word(sink, b"s", s as u64),
        Pass::Receiver(r) => pen.word(sink, b"r", r as u64),
    }
}

#[tactic(auto, unfolding(crate::specs::Report::call_text))]
fn write_call<W: Sink>(sink: &mut W, pen: &mut Pen, call: Call)
    requires { pen.old.failed ≡ false → W.write_failures sink.old < 2 ^ 64 - 1 }
    ensures { Pens (desk pen.old (W.bytes_written sink.old) (W.write_failures sink.old))
        (desk pen.new (W.bytes_written sink.new) (W.write_failures sink.new))
        (call_text call) }
{
    match call {
        Call::Send(body) => {
            pen.text(sink, b"send");
            write_body(sink, pen, body)
        }
        Call::Close => pen.text(sink, b"close"),
        Call::Take => pen.text(sink, b"take"),
    }
}

#[tactic(auto, unfolding(crate::specs::Report::answer_text))]
fn write_answer<W: Sink>(sink: &mut W, pen: &mut Pen, answer: Option<Answer>)
    requires { pen.old.failed ≡ false → W.write_failures sink.old < 2 ^ 64 - 1 }
    ensures { Pens (desk pen.old (W.bytes_written sink.old) (W.write_failures sink.old))
        (desk pen.new (W.bytes_written sink.new) (W.write_failures sink.new))
        (answer_text answer) }
{
    match answer {
        None => pen.text(sink, b"pending"),
        Some(Answer::Send(SendAnswer::Accepted { place })) => pen.word(sink, b"accepted ", place),
        Some(Answer::Send(SendAnswer::Full)) => pen.text(sink, b"full"),
        Some(Answer::Send(SendAnswer::Closed)) => pen.text(sink, b"closed"),
        Some(Answer::Send(SendAnswer::Spent)) => pen.text(sink, b"spent"),
        Some(Answer::Close(CloseAnswer::Shut { total })) => pen.word(sink, b"shut ", total),
        Some(Answer::Close(CloseAnswer::Already { total })) => pen.word(sink, b"already ", total),
        Some(Answer::Take(TakeAnswer::Got(item))) => write_item(sink, pen, item),
        Some(Answer::Take(TakeAnswer::Empty)) => pen.text(sink, b"empty"),
        Some(Answer::Take(TakeAnswer::Ended { total })) => pen.word(sink, b"ended ", total),
    }
}

#[tactic(auto, unfolding(crate::specs::Report::item_text))]
fn write_item<W: Sink>(sink: &mut W, pen: &mut Pen, item: Item)
    requires { pen.old.failed ≡ false → W.write_failures sink.old < 2 ^ 64 - 1 }
    ensures { Pens (desk pen.old (W.bytes_written sink.old) (W.write_failures sink.old))
        (desk pen.new (W.bytes_written sink.new) (W.write_failures sink.new))
        (item_text item) }
{
    pen.word(sink, b"got ", item.place);
    pen.word(sink, b" s", item.sender as u64);
    pen.word(sink, b" ", item.number as u64);
    write_body(sink, pen, item.body)
}

/// Writes the words of a body, each after a space, as a report has them in a call and in an item.
#[tactic(auto, using(crate::proofs::Lines::none, crate::proofs::Lines::all))]
pub fn write_body<W: Sink>(sink: &mut W, pen: &mut Pen, body: Body)
    requires { pen.old.failed ≡ false → W.write_failures sink.old < 2 ^ 64 - 1 }
    ensures { Pens (desk pen.old (W.bytes_written sink.old) (W.write_failures sink.old))
        (desk pen.new (W.bytes_written sink.new) (W.write_failures sink.new))
        (words_text (words_of body)) }
{
    for word in body.words() {
        pen.word(sink, b" ", *word);
    }
}

#[tactic(auto, unfolding(crate::specs::Report::verdict_text))]
fn write_verdict_line<W: Sink>(sink: &mut W, pen: &mut Pen, verdict: Verdict)
    requires { pen.old.failed ≡ false → W.write_failures sink.old < 2 ^ 64 - 1 }
    ensures { Pens (desk pen.old (W.bytes_written sink.old) (W.write_failures sink.old))
        (desk pen.new (W.bytes_written sink.new) (W.write_failures sink.new))
        (verdict_text verdict) }
{
    match verdict {
        Verdict::Clean => pen.text(sink, b"audit clean\n"),
        Verdict::Fault { kind, place } => {
            pen.word(sink, b"audit fault ", kind as u64);
            pen.word(sink, b" place ", place);
            pen.text(sink, b"\n")
        }
    }
}
