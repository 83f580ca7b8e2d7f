//! The line of a verdict.

use cc_judge::{Act, Fault, Stay, Tie, Verdict};
use cc_log::{Ending, Log, item_text};
use std::alloc::{AllocError, Global};

/// How many lines of a set the line of a verdict names at most.
pub const FEW: usize = 3;

/// The name of the thread of the call at a place, without control characters, if the log has a line of that call.
fn thread_at(alloc: Global, log: &Log, place: usize) -> Result<Option<String>, AllocError> {
    let Some(shown) = log.shown(place) else {
        return Ok(None);
    };
    let Some((name, _)) = log.threads.get_index(shown.thread as usize) else {
        return Ok(None);
    };
    Ok(Some(plain(alloc, name.as_str())?))
}

/// A text whose control characters are escaped.
fn plain(alloc: Global, text: &str) -> Result<String, AllocError> {
    let quoted = format!(in alloc; "{text:?}")?;
    let bare = quoted
        .strip_prefix('"')
        .and_then(|rest| rest.strip_suffix('"'));
    String::from_str(alloc, bare.unwrap_or(text))
}

/// The line of the call at a place, and its thread; or these words if the log lacks the call, as one that begins late
/// may.
fn line_or(
    alloc: Global,
    log: &Log,
    place: usize,
    lacking: &'static str,
) -> Result<String, AllocError> {
    match (log.line_of(place), thread_at(alloc, log, place)?) {
        (Some(line), Some(thread)) => format!(in alloc; "line {line} (thread {thread})"),
        _ => String::from_str(alloc, lacking),
    }
}

/// The line of the call at a place.
fn line(alloc: Global, log: &Log, place: usize) -> Result<String, AllocError> {
    line_or(alloc, log, place, "a call before the log")
}

/// The line of the send at a place.
fn send_line(alloc: Global, log: &Log, place: usize) -> Result<String, AllocError> {
    line_or(alloc, log, place, "a send before the log")
}

/// The lines of two calls, and their threads.
fn two_lines(alloc: Global, log: &Log, first: usize, second: usize) -> Result<String, AllocError> {
    let (Some(one), Some(other)) = (log.line_of(first), log.line_of(second)) else {
        return format!(in alloc;
            "{} and {}",
            line(alloc, log, first)?,
            line(alloc, log, second)?
        );
    };
    let (Some(a), Some(b)) = (
        thread_at(alloc, log, first)?,
        thread_at(alloc, log, second)?,
    ) else {
        return format!(in alloc; "lines {one} and {other}");
    };
    if a.as_str() == b.as_str() {
        return format!(in alloc; "lines {one} and {other} (thread {a})");
    }
    format!(in alloc; "lines {one} and {other} (threads {a} and {b})")
}

/// The numbers of the lines of the calls at these places, and of as many others: of many the first.
fn lines_and(
    alloc: Global,
    log: &Log,
    places: &[usize],
    more: usize,
) -> Result<String, AllocError> {
    let more = places.len().saturating_sub(FEW).saturating_add(more);
    let mut text = String::from_str(alloc, if places.len() == 1 { "line " } else { "lines " })?;
    let named = &places[..places.len().min(FEW)];
    for (at, place) in named.iter().enumerate() {
        let is_last = more == 0 && at.saturating_add(1) == named.len();
        text.push_str(match (at, is_last) {
            (0, _) => "",
            (_, true) => " and ",
            _ => ", ",
        })?;
        match log.line_of(*place) {
            Some(line) => text.push_str(format!(in alloc; "{line}")?.as_str())?,
            None => text.push_str("before the log")?,
        }
    }
    if more > 0 {
        text.push_str(format!(in alloc; " and {more} others")?.as_str())?;
    }
    Ok(text)
}

/// The item that the call at a place sent, offered or took.
fn item_at(alloc: Global, log: &Log, place: usize) -> Result<String, AllocError> {
    match log.body_at(place) {
        Some(body) => format!(in alloc; "item {}", item_text(alloc, body)?),
        None => String::from_str(alloc, "an item"),
    }
}

/// The item of a stay and the line of its send, or that it is one of several.
fn held(alloc: Global, log: &Log, stay: &Stay) -> Result<String, AllocError> {
    match stay {
        Stay::Left { sends, more, .. } if sends.len() != 1 || *more > 0 => {
            let lines = lines_and(alloc, log, sends.as_slice(), *more)?;
            format!(in alloc; "one of the items of {lines}")
        }
        Stay::Taken { send, .. } => sent_item(alloc, log, *send),
        Stay::Left { sends, .. } => {
            sent_item(alloc, log, sends.first().copied().unwrap_or(usize::MAX))
        }
    }
}

/// The item that the call at a place sent, and its line.
fn sent_item(alloc: Global, log: &Log, send: usize) -> Result<String, AllocError> {
    format!(in alloc;
        "{} of {}",
        item_at(alloc, log, send)?,
        send_line(alloc, log, send)?
    )
}

/// The act of the call at a place.
fn act_at(log: &Log, place: usize) -> Option<Act> {
    Some(log.calls.get(place)?.act)
}

/// The place of the call that took the item of the send at a place, if a call of the log took the item.
fn take_of(log: &Log, send: usize) -> Option<usize> {
    let Act::Send(item) = act_at(log, send)? else {
        return None;
    };
    log.calls.iter().position(|call| matches!(call.act, Act::Took(other) if other == item))
}

/// When the call at a place began.
fn begin_at(log: &Log, place: usize) -> Option<u64> {
    Some(log.calls.get(place)?.begin)
}

/// The stay as the whole log shows it, by the fewest items. A take that hadn't returned when the fault showed may have
/// returned later: if its item is one of several, the others were left to the other takes; or, if the take began no
/// earlier than `next`, its item alone shows the fault.
pub fn in_whole(alloc: Global, log: &Log, stay: &Stay) -> Result<Stay, AllocError> {
    match stay {
        Stay::Taken { send, take, closed } => Ok(Stay::Taken {
            send: *send,
            take: *take,
            closed: *closed,
        }),
        Stay::Left {
            sends,
            more,
            next,
            closed,
        } => {
            let until = next
                .and_then(|next| begin_at(log, next))
                .unwrap_or(u64::MAX);
            let mut left = Vec::new(alloc);
            for send in sends {
                match take_of(log, *send) {
                    Some(take) if *more == 0 && begin_at(log, take) >= Some(until) => {
                        return Ok(Stay::Taken {
                            send: *send,
                            take,
                            closed: *closed,
                        });
                    }
                    Some(_) if *more == 0 => {}
                    _ => left.push(*send)?,
                }
            }
            Ok(Stay::Left {
                sends: left,
                more: *more,
                next: *next,
                closed: *closed,
            })
        }
    }
}

/// How many takes of the log haven't returned.
fn waits(log: &Log) -> usize {
    log.calls
        .iter()
        .filter(|call| matches!(call.act, Act::Taking))
        .count()
}

/// Whether the queue was emptied: a take found none, and began after each accepted send had ended.
fn is_drained(log: &Log) -> bool {
    let mut last = 0;
    for call in &log.calls {
        if matches!(call.act, Act::Send(_)) {
            last = last.max(call.end.unwrap_or(u64::MAX));
        }
    }
    log.calls.iter().any(|call| matches!(call.act, Act::FoundNone | Act::Ended)
        && call.begin > last)
}

/// The place of the first take that may have got the item of a stay, or one of several. None if the take of the item is
/// known, or if the stay is the last one that is named and each take of the log returned.
pub fn next_of(log: &Log, stay: &Stay, is_last: bool) -> Option<usize> {
    match stay {
        Stay::Left { next, .. } if !is_last || waits(log) > 0 => *next,
        _ => None,
    }
}

/// What became of items that no line took.
fn fate(alloc: Global, log: &Log, sends: &[usize]) -> Result<String, AllocError> {
    let which = if sends.len() == 1 { "it" } else { "them" };
    match waits(log) {
        0 if is_drained(log) => format!(in alloc; "no line took {which}: lost"),
        0 => format!(in alloc; "no line took {which}: lost, or still in the queue"),
        1 => format!(in alloc; "no line took {which}, and 1 take hasn't returned"),
        takes => format!(in alloc; "no line took {which}, and {takes} takes haven't returned"),
    }
}

/// When the item of a stay left the queue, or what became of the items. Others follow, or the stay is the last one that
/// is named.
fn leaves(alloc: Global, log: &Log, stay: &Stay, is_last: bool) -> Result<String, AllocError> {
    let (sends, more) = match stay {
        Stay::Taken { take, .. } => {
            return format!(in alloc; "taken later by {}", line(alloc, log, *take)?);
        }
        Stay::Left { sends, more, .. } => (sends, *more),
    };
    let fate = if more == 0 {
        fate(alloc, log, sends.as_slice())?
    } else {
        String::from_str(alloc, "taken later or by no line")?
    };
    match next_of(log, stay, is_last) {
        Some(next) => {
            let next = line(alloc, log, next)?;
            format!(in alloc; "there at least until {next} began ({fate})")
        }
        None => Ok(fate),
    }
}

/// Appends an item, by the lines of its sends and its take, and by the line that shows the queue closed if the item counts for
/// that.
fn push_item(
    alloc: Global,
    text: &mut String,
    log: &Log,
    stay: &Stay,
    is_last: bool,
) -> Result<(), AllocError> {
    let stay = &in_whole(alloc, log, stay)?;
    text.push_str(format!(in alloc; "; {}, ", held(alloc, log, stay)?)?.as_str())?;
    if let Some(closed) = stay.closed() {
        let closed = format!(in alloc;
            "sent before {} showed that the queue was closed, ",
            line(alloc, log, closed)?
        )?;
        text.push_str(closed.as_str())?;
    }
    text.push_str(leaves(alloc, log, stay, is_last)?.as_str())
}

/// How many items a page names at most of one call.
pub const MANY: usize = 20;

/// Items one after another: of many the first, and how many others there are.
fn items(alloc: Global, log: &Log, stays: &[Stay]) -> Result<String, AllocError> {
    let mut text = String::new(alloc);
    for (at, stay) in stays.iter().take(FEW).enumerate() {
        push_item(
            alloc,
            &mut text,
            log,
            stay,
            at.saturating_add(1) == stays.len(),
        )?;
    }
    if stays.len() > FEW {
        let others = stays.len() - FEW;
        text.push_str(format!(in alloc; "; then {others} others, one after another")?.as_str())?;
    }
    Ok(text)
}

/// Whether the call at a place found the end of a queue whose closes the log has.
pub fn found_end(log: &Log, place: usize) -> bool {
    let is_end = match log.calls.get(place) {
        Some(call) => matches!(call.act, Act::Ended),
        None => false,
    };
    is_end && log.rules.closes
}

/// The place of the close that began first.
pub fn first_close(log: &Log) -> Option<usize> {
    let mut first: Option<(u64, usize)> = None;
    for (place, call) in log.calls.iter().enumerate() {
        if matches!(call.act, Act::Close) {
            match first {
                Some((begin, _)) if begin <= call.begin => {}
                _ => first = Some((call.begin, place)),
            }
        }
    }
    let (_, place) = first?;
    Some(place)
}

/// The text of a take that had ended before the send of its item began.
fn taken_before_sent(
    alloc: Global,
    log: &Log,
    send: usize,
    take: usize,
) -> Result<String, AllocError> {
    let item = item_at(alloc, log, take)?;
    let (take, send) = (line(alloc, log, take)?, line(alloc, log, send)?);
    format!(in alloc;
        "judge fault: taken before sent: {take} took {item}, and had ended before {send} began to send it\n"
    )
}

/// The text of an item that was overtaken by the one of these calls.
fn overtaken(
    alloc: Global,
    log: &Log,
    stay: &Stay,
    later_send: usize,
    later_take: usize,
) -> Result<String, AllocError> {
    let stay = &in_whole(alloc, log, stay)?;
    let (held, leaves) = (held(alloc, log, stay)?, leaves(alloc, log, stay, true)?);
    let (later, take) = (
        sent_item(alloc, log, later_send)?,
        line(alloc, log, later_take)?,
    );
    format!(in alloc;
        "judge fault: overtaken: {take} took {later}, while {held}, sent before it, was in the queue; {leaves}\n"
    )
}

/// The text of a send that found the queue open after a call that found it closed.
fn reopened(alloc: Global, log: &Log, closed: usize, send: usize) -> Result<String, AllocError> {
    let (closed, send) = (line(alloc, log, closed)?, line(alloc, log, send)?);
    format!(in alloc;
        "judge fault: open after closed: {closed} closed the queue or found it closed, and had ended before {send} began, which found it open\n"
    )
}

/// The text of a call after which the queue held more items than it may.
fn too_many(alloc: Global, log: &Log, call: usize, sends: &[usize]) -> Result<String, AllocError> {
    let capacity = log.rules.capacity.unwrap_or(0);
    let sends = lines_and(alloc, log, sends, 0)?;
    format!(in alloc;
        "judge fault: too many: when {} had ended, more than {capacity} of the items of {sends} were in the queue\n",
        line(alloc, log, call)?
    )
}

/// The text of a take that found none, though the queue held these items in turn.
fn not_empty(alloc: Global, log: &Log, call: usize, stays: &[Stay]) -> Result<String, AllocError> {
    let items = items(alloc, log, stays)?;
    let found = if found_end(log, call) {
        "found the queue closed and empty, and at all its times at which the queue can have been closed it held an item"
    } else {
        "found none, and at all its times the queue held an item"
    };
    format!(in alloc;
        "judge fault: not empty: {} {found}{items}\n",
        line(alloc, log, call)?
    )
}

/// The text of a fault.
fn fault_text(alloc: Global, log: &Log, fault: &Fault) -> Result<String, AllocError> {
    match fault {
        Fault::NeverSent { take } => {
            format!(in alloc;
                "judge fault: never sent: {} took {}, which no accepted send sent\n",
                line(alloc, log, *take)?,
                item_at(alloc, log, *take)?
            )
        }
        Fault::TakenBeforeSent { send, take } => { taken_before_sent(alloc, log, *send, *take) }
        Fault::TakenTwice { first, second } => {
            let two = two_lines(alloc, log, *first, *second)?;
            format!(in alloc;
                "judge fault: taken twice: {two} took {}\n",
                item_at(alloc, log, *first)?
            )
        }
        Fault::Overtaken {
            stay,
            later_send,
            later_take,
        } => { overtaken(alloc, log, stay, *later_send, *later_take) }
        Fault::Reopened { closed, send } => { reopened(alloc, log, *closed, *send) }
        Fault::ClosedEarly { call } => format!(in alloc;
            "judge fault: closed early: {} found the queue closed, and had ended before a close began\n",
            line(alloc, log, *call)?
        ),
        Fault::NotFull { call } => {
            let capacity = log.rules.capacity.unwrap_or(0) as usize;
            format!(in alloc;
                "judge fault: not full: {} found the queue full, and at none of its times can it have held {}\n",
                line(alloc, log, *call)?,
                count(alloc, capacity, "item", "items")?
            )
        }
        Fault::TooMany { call, sends } => { too_many(alloc, log, *call, sends.as_slice()) }
        Fault::NotEmpty { call, stays } => { not_empty(alloc, log, *call, stays.as_slice()) }
        Fault::NoOrder => String::from_str(alloc, NO_ORDER),
    }
}

/// The text of a log without a legal order, of which no few calls show that.
const NO_ORDER: &str =
    "judge fault: no order: lines alone order some calls, and however these are divided in time, there is a fault\n";

/// The text of a search that was given up at a tie, or wasn't begun.
fn undecided(alloc: Global, log: &Log, tie: Option<Tie>) -> Result<String, AllocError> {
    let Some(tie) = tie else {
        return String::from_str(
            alloc,
            "judge undecided: the calls have a legal order by their times alone; their lines order them, too, and times are \
near 2^63 or above\n",
        );
    };
    let two = two_lines(alloc, log, tie.earlier as usize, tie.later as usize)?;
    format!(in alloc;
        "judge undecided: the calls have a legal order by their times alone; their lines order them in too many places to \
try each order, as at {two}\n"
    )
}

/// How many of the sends with an answer have to be judged by more than the log says: those that found the queue full if its
/// capacity isn't known, and those that found it closed if the log has no closes.
struct Counts {
    full: usize,
    closed: usize,
}

/// The counts of a log.
fn unjudged(log: &Log) -> Counts {
    let full = if log.rules.capacity.is_some() {
        0
    } else {
        log.notes.full
    };
    let closed = if log.rules.closes {
        0
    } else {
        log.notes.closed
    };
    Counts { full, closed }
}

/// The number of sends that aren't judged, with their answers, and of those that may have found the queue full.
fn refused(alloc: Global, log: &Log) -> Result<String, AllocError> {
    let Counts { full, closed } = unjudged(log);
    let mut text = match full.saturating_add(closed) {
        0 => String::from_str(alloc, "0 not judged")?,
        all => format!(in alloc; "{all} not judged: {full} full, {closed} closed")?,
    };
    if let Some(capacity) = log.rules.capacity {
        let possible = format!(in alloc;
            "; {} may have found {capacity} in the queue",
            log.notes.full
        )?;
        text.push_str(possible.as_str())?;
    }
    Ok(text)
}

/// The number of calls that are in the order by what they did.
fn judged(log: &Log) -> usize {
    let Counts { full: _, closed } = unjudged(log);
    log.notes
        .lines
        .len()
        .saturating_sub(log.notes.full)
        .saturating_sub(closed)
}

/// A number, and the words for one or for several.
pub fn count(alloc: Global, number: usize, one: &str, several: &str) -> Result<String, AllocError> {
    format!(in alloc; "{number} {}", if number == 1 { one } else { several })
}

/// The words for how the log says that it ends.
pub fn said_end(ends: Option<Ending>) -> &'static str {
    match ends {
        Some(Ending::Whole) => "the log says that it is whole",
        Some(Ending::Early) => "the log says that it ends early",
        None => "the log doesn't say how it ends",
    }
}

/// The line of a verdict on this log.
pub fn text_of(alloc: Global, log: &Log, verdict: &Verdict) -> Result<String, AllocError> {
    match verdict {
        Verdict::Clean => {
            let refused = refused(alloc, log)?;
            let calls = count(alloc, judged(log), "call has", "calls have")?;
            format!(in alloc;
                "judge clean: {calls} a legal order, {refused}; {}\n",
                said_end(log.ends)
            )
        }
        Verdict::Fault(fault) => fault_text(alloc, log, fault),
        Verdict::Undecided(tie) => undecided(alloc, log, *tie),
    }
}
