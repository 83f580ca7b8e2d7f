//! The text of a trace: the events of a run as lines of JSON.
ghost use Rattle.std.specs.Prelude.{◌≡◌, ◌<◌, ◌^◌, ◌-◌, false, is_err};
ghost use Rattle.cc_io.specs.Written.{Writes, Pens, desk};
ghost use Rattle.cc_report.specs.Report.{pass_text};
ghost use Rattle.cc_show.specs.Trace.{kind_name, chain_text, object_text, node_field_text, item_field_text, word_name, line_text, trace_text};

use crate::player::ShownEvent;
use cc_io::{Pen, Sink, WriteFault};
use cc_machine::Kind;
use cc_model::Pass;
use cc_runs::{Chain, ItemField, NodeField, Object, Word};

/// Writes a line for each event, and stops at the first write that fails.
#[tactic(auto, using(cc_io::proofs::Writing::all_out))]
pub fn write_trace<W: Sink>(sink: &mut W, events: &[ShownEvent]) -> Result<(), WriteFault>
    requires { W.write_failures sink.old < 2 ^ 64 - 1 }
    ensures { Writes (is_err result) (W.bytes_written sink.old) (W.bytes_written sink.new)
        (W.write_failures sink.old) (W.write_failures sink.new) (trace_text events.now) }
{
    let mut pen = Pen::new();
    write_lines(sink, &mut pen, events);
    pen.finish(sink)
}

/// A line for each event, numbered from 1.
#[tactic(auto, using(cc_report::proofs::Lines::none, cc_report::proofs::Lines::all))]
fn write_lines<W: Sink>(sink: &mut W, pen: &mut Pen, events: &[ShownEvent])
    requires { pen.old.failed ≡ false → W.write_failures sink.old < 2 ^ 64 - 1 }
    ensures { Pens (desk pen.old (W.bytes_written sink.old) (W.write_failures sink.old))
        (desk pen.new (W.bytes_written sink.new) (W.write_failures sink.new)) (trace_text events.now) }
{
    for (i, event) in events.iter().enumerate() {
        write_line(sink, pen, i as u64 + 1, *event);
    }
}

fn write_line<W: Sink>(sink: &mut W, pen: &mut Pen, number: u64, event: ShownEvent)
    requires { pen.old.failed ≡ false → W.write_failures sink.old < 2 ^ 64 - 1 }
    ensures { Pens (desk pen.old (W.bytes_written sink.old) (W.write_failures sink.old))
        (desk pen.new (W.bytes_written sink.new) (W.write_failures sink.new)) (line_text number event) }
{
    pen.word(sink, b"{\"event\":", number);
    pen.text(sink, b",\"pass\":\"");
    write_pass(sink, pen, event.pass);
    pen.text(sink, b"\",\"kind\":\"");
    pen.text(sink, kind_name(event.kind));
    pen.text(sink, b"\",\"word\":\"");
    write_word(sink, pen, event.word);
    pen.word(sink, b"\",\"before\":", event.before);
    pen.word(sink, b",\"after\":", event.after);
    pen.word(sink, b",\"call\":", event.call as u64);
    pen.text(sink, b"}\n")
}

#[tactic(auto, unfolding(cc_report::specs::Report::pass_text))]
fn write_pass<W: Sink>(sink: &mut W, pen: &mut Pen, pass: Pass)
    requires { pen.old.failed ≡ false → W.write_failures sink.old < 2 ^ 64 - 1 }
    ensures { Pens (desk pen.old (W.bytes_written sink.old) (W.write_failures sink.old))
        (desk pen.new (W.bytes_written sink.new) (W.write_failures sink.new)) (pass_text pass) }
{
    match pass {
        Pass::Sender(number) => pen.word(sink, b"s", number as u64),
        Pass::Receiver(number) => pen.word(sink, b"r", number as u64),
    }
}

/// The name of a kind.
fn kind_name(kind: Kind) -> &'static [u8]
    ensures { result.now ≡ kind_name kind }
{
    match kind {
        Kind::ResetState => b"ResetState",
        Kind::Exchange => b"Exchange",
        Kind::ReadState => b"ReadState",
        Kind::HandOver => b"HandOver",
        Kind::ReadObject => b"ReadObject",
        Kind::WriteObject => b"WriteObject",
        Kind::ResetNext => b"ResetNext",
        Kind::WriteRequest => b"WriteRequest",
        Kind::Link => b"Link",
        Kind::ReadNext => b"ReadNext",
        Kind::ReadRequest => b"ReadRequest",
        Kind::WriteAnswer => b"WriteAnswer",
        Kind::MarkDone => b"MarkDone",
        Kind::ReadAnswer => b"ReadAnswer",
        Kind::ReadPassed => b"ReadPassed",
        Kind::ResetListNode => b"ResetListNode",
        Kind::WriteItem => b"WriteItem",
        Kind::LinkLast => b"LinkLast",
        Kind::ReadDummyNext => b"ReadDummyNext",
        Kind::ReadItem => b"ReadItem",
        Kind::AddPassed => b"AddPassed",
    }
}

/// Writes the name of a word.
#[tactic(auto, unfolding(crate::specs::Trace::word_name))]
fn write_word<W: Sink>(sink: &mut W, pen: &mut Pen, word: Word)
    requires { pen.old.failed ≡ false → W.write_failures sink.old < 2 ^ 64 - 1 }
    ensures { Pens (desk pen.old (W.bytes_written sink.old) (W.write_failures sink.old))
        (desk pen.new (W.bytes_written sink.new) (W.write_failures sink.new)) (word_name word) }
{
    match word {
        Word::Tail(chain) => {
            write_chain(sink, pen, chain);
            pen.text(sink, b".tail")
        }
        Word::Object(object) => write_object(sink, pen, object),
        Word::Node(chain, node, field) => {
            write_chain(sink, pen, chain);
            write_node_field(sink, pen, field);
            pen.word(sink, b"[", node);
            pen.text(sink, b"]")
        }
        Word::Item(node, field) => {
            write_item_field(sink, pen, field);
            pen.word(sink, b"[", node);
            pen.text(sink, b"]")
        }
    }
}

#[tactic(auto, unfolding(crate::specs::Trace::chain_text))]
fn write_chain<W: Sink>(sink: &mut W, pen: &mut Pen, chain: Chain)
    requires { pen.old.failed ≡ false → W.write_failures sink.old < 2 ^ 64 - 1 }
    ensures { Pens (desk pen.old (W.bytes_written sink.old) (W.write_failures sink.old))
        (desk pen.new (W.bytes_written sink.new) (W.write_failures sink.new)) (chain_text chain) }
{
    match chain {
        Chain::Send => pen.text(sink, b"e"),
        Chain::Take(group) => pen.word(sink, b"d", group as u64 + 1),
    }
}

#[tactic(auto, unfolding(crate::specs::Trace::object_text))]
fn write_object<W: Sink>(sink: &mut W, pen: &mut Pen, object: Object)
    requires { pen.old.failed ≡ false → W.write_failures sink.old < 2 ^ 64 - 1 }
    ensures { Pens (desk pen.old (W.bytes_written sink.old) (W.write_failures sink.old))
        (desk pen.new (W.bytes_written sink.new) (W.write_failures sink.new)) (object_text object) }
{
    match object {
        Object::Last => pen.text(sink, b"list.last"),
        Object::Shut => pen.text(sink, b"list.shut"),
        Object::Count => pen.text(sink, b"list.count"),
        Object::Cursor => pen.text(sink, b"list.cursor"),
        Object::Head(group) => {
            write_chain(sink, pen, Chain::Take(group));
            pen.text(sink, b".head")
        }
        Object::Taken(group) => {
            write_chain(sink, pen, Chain::Take(group));
            pen.text(sink, b".taken")
        }
    }
}

#[tactic(auto, unfolding(crate::specs::Trace::node_field_text))]
fn write_node_field<W: Sink>(sink: &mut W, pen: &mut Pen, field: NodeField)
    requires { pen.old.failed ≡ false → W.write_failures sink.old < 2 ^ 64 - 1 }
    ensures { Pens (desk pen.old (W.bytes_written sink.old) (W.write_failures sink.old))
        (desk pen.new (W.bytes_written sink.new) (W.write_failures sink.new)) (node_field_text field) }
{
    match field {
        NodeField::Next => pen.text(sink, b".next"),
        NodeField::State => pen.text(sink, b".state"),
        NodeField::Tag => pen.text(sink, b".tag"),
        NodeField::Body(index) => pen.word(sink, b".body", index as u64),
        NodeField::Ret => pen.text(sink, b".ret"),
    }
}

#[tactic(auto, unfolding(crate::specs::Trace::item_field_text))]
fn write_item_field<W: Sink>(sink: &mut W, pen: &mut Pen, field: ItemField)
    requires { pen.old.failed ≡ false → W.write_failures sink.old < 2 ^ 64 - 1 }
    ensures { Pens (desk pen.old (W.bytes_written sink.old) (W.write_failures sink.old))
        (desk pen.new (W.bytes_written sink.new) (W.write_failures sink.new)) (item_field_text field) }
{
    match field {
        ItemField::Tag => pen.text(sink, b"list.tag"),
        ItemField::Body(index) => pen.word(sink, b"list.body", index as u64),
        ItemField::Next => pen.text(sink, b"list.next"),
        ItemField::Passed => pen.text(sink, b"list.passed"),
    }
}
