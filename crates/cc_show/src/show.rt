//! From the bytes of a plan to the bytes of its page, or of its trace.
ghost use Rattle.std.specs.Prelude.{◌≡◌, ◌<◌, ◌+◌, ◌-◌, ◌^◌, is_err};
ghost use Rattle.cc_model.specs.HistoryRoom.{lists};
ghost use Rattle.cc_io.specs.Written.{Writes};
ghost use Rattle.cc_plan.specs.Plan.{plan_value};
ghost use Rattle.cc_report.specs.Report.{report_text};
ghost use Rattle.cc_show.specs.Show.{Shows, failed_reads_of, failed_writes_of, shown_text};

use crate::fault::ShowFault;
use crate::form::Form;
use crate::player::{ShownEvent, play_events};
use crate::text::write_page;
use crate::trace::write_trace;
use cc_audit::Verdict;
use cc_io::{Sink, Source, WriteFault, read_input};
use cc_plan::{Plan, read_plan};
use cc_play::play::audit_of;
use cc_report::Report;
use std::alloc::Global;

/// Reads a plan from the source, plays its schedule on a machine event by event, and writes its run to the sink. A page has
/// the plan's configuration and calls, each event as the machine returned it, and the report of the play; a trace has a
/// line for each event. It is written only when the whole schedule was played.
pub fn show<R: Source, W: Sink>(
    alloc: Global,
    form: Form,
    source: &mut R,
    sink: &mut W,
) -> Result<Verdict, ShowFault>
    requires reads { R.read_failures source.old < 2 ^ 64 - 1 }
    requires writes { W.write_failures sink.old < 2 ^ 64 - 1 }

    ensures shows { Shows form (R.bytes_left source.old) (R.bytes_left source.new) result
        (W.bytes_written sink.old) (W.bytes_written sink.new) }
    ensures read_failures { R.read_failures source.new ≡ R.read_failures source.old + failed_reads_of result }
    ensures write_failures { W.write_failures sink.new ≡ W.write_failures sink.old + failed_writes_of result }
{
    let input = read_input(alloc, source)?;
    let plan = read_plan(alloc, &input)?;
    let played = match play_events(alloc, &plan)? {
        Some(played) => played,
        None => return Err(ShowFault::Long),
    };
    let history = played.machine.history();
    let verdict = audit_of(alloc, history)?;
    let report = Report {
        version: plan.version,
        history,
        verdict,
    };
    write_shown(sink, form, &plan, &played.events, &report)?;
    Ok(verdict)
}

/// Writes the events of a plan in this form, and stops at the first write that fails.
fn write_shown<W: Sink>(
    sink: &mut W,
    form: Form,
    plan: &Plan,
    events: &[ShownEvent],
    report: &Report<'_>,
) -> Result<(), WriteFault>
    requires { W.write_failures sink.old < 2 ^ 64 - 1 }
    ensures { Writes (is_err result) (W.bytes_written sink.old) (W.bytes_written sink.new)
        (W.write_failures sink.old) (W.write_failures sink.new)
        (shown_text form (plan_value plan.now) events.now (report_text report.now.version (lists report.now.history.now) report.now.verdict)) }
{
    match form {
        Form::Page => write_page(sink, plan, events, report),
        Form::Trace => write_trace(sink, events),
    }
}
