//! The part of a log that is judged: from a time on, and until a time.
ghost use Rattle.std.specs.Prelude.{◌≡◌};
ghost use Rattle.cc_log.specs.Window.{begins_after, cut, ends_after, ends_early, open_said};

use crate::line::{Line, Said};

/// The part of a log that is judged. A call is cut at a moment as if the recording had begun or ended then.
#[derive(Clone, Copy)]
pub struct Window {
    /// The time from which on calls are judged: those that ended before aren't, and the log begins late.
    pub from: Option<u64>,
    /// The time until which calls are judged: those that began then or later aren't, and those that ended then or later haven't
    /// returned.
    pub until: Option<u64>,
}

/// Whether a call ended before the window.
fn ends_early(from: Option<u64>, end: Option<u64>) -> bool
    ensures { result ≡ ends_early from end }
{
    match (from, end) {
        (Some(from), Some(end)) => end < from,
        _ => false,
    }
}

/// Whether a call began after the window.
fn begins_after(until: Option<u64>, begin: u64) -> bool
    ensures { result ≡ begins_after until begin }
{
    match until {
        Some(until) => until <= begin,
        None => false,
    }
}

/// Whether a call ended after the window.
fn ends_after(until: Option<u64>, end: Option<u64>) -> bool
    ensures { result ≡ ends_after until end }
{
    match (until, end) {
        (Some(until), Some(end)) => until <= end,
        _ => false,
    }
}

/// The act of a call that had an answer later, as it was before; none for a send that was refused later.
fn open_said(said: Said) -> Option<Said>
    ensures { result ≡ open_said said }
{
    match said {
        Said::Send(body) => Some(Said::Send(body)),
        Said::Took(_) | Said::FoundNone | Said::Taking | Said::Ended => Some(Said::Taking),
        Said::Full(_) | Said::Closed(_) => None,
        Said::Close => Some(Said::Close),
    }
}

/// The call as it is judged: one that ended before the window or began after it isn't; one that ended after it hasn't returned.
pub fn cut(window: Window, line: Line) -> Option<Line>
    ensures { result ≡ cut window line }
{
    if ends_early(window.from, line.end) || begins_after(window.until, line.begin) {
        return None;
    }
    if !ends_after(window.until, line.end) {
        return Some(line);
    }
    let said = open_said(line.said)?;
    Some(Line {
        begin: line.begin,
        end: None,
        said,
    })
}
