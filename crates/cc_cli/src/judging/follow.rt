//! Following the log on an input: judging it while it is written.
ghost use Rattle.std.specs.Prelude.{◌≡◌, ◌<◌, ◌+◌, ◌-◌, ◌^◌, ◌==◌, true, if◌then◌else◌};
ghost use Rattle.cc_cli.specs.Failures.{FailsBy};
ghost use Rattle.cc_cli.specs.Judged.{IsDueOrNone, IsTold};

use crate::input::Reasoned;
use crate::judging::judge::{Found, refused, tell_found};
use crate::judging::verdict_line::{count, said_end, text_of};
use cc_io::{Sink, Source, out_of_memory};
use cc_judge::Verdict;
use cc_log::{Followed, Options, follow};
use std::alloc::{AllocError, Global};

/// The line of the verdict on a log that was followed.
fn followed_text(alloc: Global, followed: &Followed) -> Result<String, AllocError> {
    match followed.verdict {
        Verdict::Clean => format!(in alloc;
            "judge clean: {} of {} {}; {}\n",
            count(alloc, followed.parts, "part", "parts")?,
            count(alloc, followed.lines, "line", "lines")?,
            if followed.parts == 1 {
                "has a legal order"
            } else {
                "have legal orders"
            },
            said_end(followed.log.ends)
        ),
        _ => text_of(alloc, &followed.log, &followed.verdict),
    }
}

/// Writes the verdict on a log that was followed, and returns the status.
fn tell_followed<W: Sink, E: Sink>(
    alloc: Global,
    followed: Followed,
    sink: &mut W,
    errors: &mut E,
) -> u8
    requires writes { W.write_failures sink.old < 2 ^ 64 - 1 }
    requires errors { E.write_failures errors.old < 2 ^ 64 - 1 }
    ensures told { IsTold followed.verdict result }
    ensures failures { W.write_failures sink.new ≡ W.write_failures sink.old + (if result == 4 then 1 else 0) }
{
    let Ok(line) = followed_text(alloc, &followed) else {
        return out_of_memory(errors);
    };
    let Followed { log, verdict, .. } = followed;
    tell_found(alloc, &log, &Found { verdict, line }, sink, errors)
}

/// Follows the log of this name on the source by these options, writes the verdict to the sink, and returns the status.
pub fn follow_input<R: Source + Reasoned, W: Sink, E: Sink>(
    alloc: Global,
    options: Options,
    name: &str,
    source: &mut R,
    sink: &mut W,
    errors: &mut E,
) -> u8
    requires reads { R.read_failures source.old < 2 ^ 64 - 1 }
    requires writes { W.write_failures sink.old < 2 ^ 64 - 1 }
    requires errors { E.write_failures errors.old < 2 ^ 64 - 1 }
    ensures due { IsDueOrNone true options (R.bytes_left source.old) result }
    ensures failures { FailsBy (R.read_failures source.old) (R.read_failures source.new) (W.write_failures sink.old) (W.write_failures sink.new) result }
{
    match follow(alloc, source, options) {
        Ok(followed) => tell_followed(alloc, followed, sink, errors),
        Err(fault) => refused(alloc, errors, name, source, &fault),
    }
}
