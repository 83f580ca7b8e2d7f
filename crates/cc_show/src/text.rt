//! The text of a page.
ghost use Rattle.std.specs.Prelude.{◌≡◌, ◌<◌, ◌^◌, ◌-◌, false, is_err, map};
ghost use Rattle.cc_model.specs.HistoryRoom.{lists};
ghost use Rattle.cc_io.specs.Written.{Writes, Pens, desk};
ghost use Rattle.cc_plan.specs.Calls.{calls_in};
ghost use Rattle.cc_plan.specs.Plan.{plan_value};
ghost use Rattle.cc_report.specs.Report.{words_text, report_text};
ghost use Rattle.cc_show.specs.Page.{call_text, calls_text, senders_text, config_text, event_text, events_text, run_text, front_text, told_text, page_text};

use crate::kinds::kind_number;
use crate::page::{BACK, FRONT, MIDDLE};
use crate::player::ShownEvent;
use cc_io::{Pen, Sink, WriteFault, write_bytes};
use cc_model::Call;
use cc_plan::{Calls, Plan};
use cc_report::{Report, write_body, write_report};

/// Writes the page of a plan's events and of a report, and stops at the first write that fails.
#[tactic(auto, using(cc_io::proofs::Writing::both_out, cc_io::proofs::Writing::first_failed), unfolding(crate::specs::Page::page_text))]
pub fn write_page<W: Sink>(
    sink: &mut W,
    plan: &Plan,
    events: &[ShownEvent],
    report: &Report<'_>,
) -> Result<(), WriteFault>
    requires { W.write_failures sink.old < 2 ^ 64 - 1 }
    ensures { Writes (is_err result) (W.bytes_written sink.old) (W.bytes_written sink.new)
        (W.write_failures sink.old) (W.write_failures sink.new)
        (page_text (plan_value plan.now) events.now (report_text report.now.version (lists report.now.history.now) report.now.verdict)) }
{
    write_told(sink, plan, events, report)?;
    write_bytes(sink, BACK)
}

/// Writes what comes before the report, and the report, and stops at the first write that fails.
#[tactic(auto, using(cc_io::proofs::Writing::both_out, cc_io::proofs::Writing::first_failed), unfolding(crate::specs::Page::told_text))]
fn write_told<W: Sink>(
    sink: &mut W,
    plan: &Plan,
    events: &[ShownEvent],
    report: &Report<'_>,
) -> Result<(), WriteFault>
    requires { W.write_failures sink.old < 2 ^ 64 - 1 }
    ensures { Writes (is_err result) (W.bytes_written sink.old) (W.bytes_written sink.new)
        (W.write_failures sink.old) (W.write_failures sink.new)
        (told_text (plan_value plan.now) events.now (report_text report.now.version (lists report.now.history.now) report.now.verdict)) }
{
    write_front(sink, plan, events)?;
    write_report(sink, report)
}

/// Writes what comes before the report, and stops at the first write that fails.
fn write_front<W: Sink>(sink: &mut W, plan: &Plan, events: &[ShownEvent]) -> Result<(), WriteFault>
    requires { W.write_failures sink.old < 2 ^ 64 - 1 }
    ensures { Writes (is_err result) (W.bytes_written sink.old) (W.bytes_written sink.new)
        (W.write_failures sink.old) (W.write_failures sink.new) (front_text (plan_value plan.now) events.now) }
{
    let mut pen = Pen::new();
    pen.text(sink, FRONT);
    write_run(sink, &mut pen, plan, events);
    pen.text(sink, MIDDLE);
    pen.finish(sink)
}

/// Writes a plan's configuration, its calls, and the events of its run.
fn write_run<W: Sink>(sink: &mut W, pen: &mut Pen, plan: &Plan, events: &[ShownEvent])
    requires { pen.old.failed ≡ false → W.write_failures sink.old < 2 ^ 64 - 1 }
    ensures { Pens (desk pen.old (W.bytes_written sink.old) (W.write_failures sink.old))
        (desk pen.new (W.bytes_written sink.new) (W.write_failures sink.new))
        (run_text (plan_value plan.now) events.now) }
{
    write_config(sink, pen, plan);
    write_senders(sink, pen, &plan.senders);
    write_receivers(sink, pen, &plan.receivers);
    pen.text(sink, b"\n");
    write_events(sink, pen, events);
    pen.text(sink, b"\n")
}

/// Writes the line of a configuration.
fn write_config<W: Sink>(sink: &mut W, pen: &mut Pen, plan: &Plan)
    requires { pen.old.failed ≡ false → W.write_failures sink.old < 2 ^ 64 - 1 }
    ensures { Pens (desk pen.old (W.bytes_written sink.old) (W.write_failures sink.old))
        (desk pen.new (W.bytes_written sink.new) (W.write_failures sink.new))
        (config_text (plan_value plan.now)) }
{
    pen.word(sink, b" ", plan.version as u64);
    pen.word(sink, b" ", plan.config.capacity as u64);
    pen.word(sink, b" ", plan.config.bound as u64);
    pen.word(sink, b" ", plan.config.life);
    pen.word(sink, b" ", plan.config.groups as u64);
    pen.word(sink, b" ", plan.config.senders as u64);
    pen.word(sink, b" ", plan.config.receivers as u64);
    pen.text(sink, b"\n")
}

/// Writes a line for each sender.
#[tactic(auto, using(cc_report::proofs::Lines::none))]
fn write_senders<W: Sink>(sink: &mut W, pen: &mut Pen, senders: &[Calls])
    requires { pen.old.failed ≡ false → W.write_failures sink.old < 2 ^ 64 - 1 }
    ensures { Pens (desk pen.old (W.bytes_written sink.old) (W.write_failures sink.old))
        (desk pen.new (W.bytes_written sink.new) (W.write_failures sink.new))
        (senders_text (map calls_in senders.now)) }
{
    for calls in senders {
        write_calls(sink, pen, calls);
        pen.text(sink, b"\n");
    }
}

/// Writes the calls of a sender.
#[tactic(auto, using(cc_report::proofs::Lines::none))]
fn write_calls<W: Sink>(sink: &mut W, pen: &mut Pen, calls: &Calls)
    requires { pen.old.failed ≡ false → W.write_failures sink.old < 2 ^ 64 - 1 }
    ensures { Pens (desk pen.old (W.bytes_written sink.old) (W.write_failures sink.old))
        (desk pen.new (W.bytes_written sink.new) (W.write_failures sink.new)) (calls_text (calls_in calls.now)) }
{
    for place in 0..calls.len() {
        write_call(sink, pen, calls.at(place));
    }
}

#[tactic(auto, unfolding(crate::specs::Page::call_text))]
fn write_call<W: Sink>(sink: &mut W, pen: &mut Pen, call: Call)
    requires { pen.old.failed ≡ false → W.write_failures sink.old < 2 ^ 64 - 1 }
    ensures { Pens (desk pen.old (W.bytes_written sink.old) (W.write_failures sink.old))
        (desk pen.new (W.bytes_written sink.new) (W.write_failures sink.new)) (call_text call) }
{
    match call {
        Call::Send(body) => {
            pen.text(sink, b" s");
            write_body(sink, pen, body)
        }
        Call::Close => pen.text(sink, b" c"),
        Call::Take => pen.text(sink, b" t"),
    }
}

/// Writes how often each receiver takes.
#[tactic(auto, using(cc_report::proofs::Lines::none, cc_report::proofs::Lines::all))]
fn write_receivers<W: Sink>(sink: &mut W, pen: &mut Pen, takes: &[u32])
    requires { pen.old.failed ≡ false → W.write_failures sink.old < 2 ^ 64 - 1 }
    ensures { Pens (desk pen.old (W.bytes_written sink.old) (W.write_failures sink.old))
        (desk pen.new (W.bytes_written sink.new) (W.write_failures sink.new)) (words_text takes.now) }
{
    for often in takes {
        pen.word(sink, b" ", *often as u64);
    }
}

/// Writes the events.
#[tactic(auto, using(cc_report::proofs::Lines::none, cc_report::proofs::Lines::all))]
fn write_events<W: Sink>(sink: &mut W, pen: &mut Pen, events: &[ShownEvent])
    requires { pen.old.failed ≡ false → W.write_failures sink.old < 2 ^ 64 - 1 }
    ensures { Pens (desk pen.old (W.bytes_written sink.old) (W.write_failures sink.old))
        (desk pen.new (W.bytes_written sink.new) (W.write_failures sink.new)) (events_text events.now) }
{
    for event in events {
        write_event(sink, pen, *event);
    }
}

/// Writes the row and the kind of an event.
fn write_event<W: Sink>(sink: &mut W, pen: &mut Pen, event: ShownEvent)
    requires { pen.old.failed ≡ false → W.write_failures sink.old < 2 ^ 64 - 1 }
    ensures { Pens (desk pen.old (W.bytes_written sink.old) (W.write_failures sink.old))
        (desk pen.new (W.bytes_written sink.new) (W.write_failures sink.new)) (event_text event) }
{
    pen.word(sink, b" ", event.row as u64);
    pen.word(sink, b" ", kind_number(event.kind))
}
