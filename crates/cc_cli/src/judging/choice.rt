//! Which calls the page of a judged log shows: those that the fault names, those of the same items, and some at the same times.

use crate::judging::verdict_line::{MANY, first_close, found_end, in_whole, next_of};
use cc_judge::{Act, Call, Fault, Stay};
use cc_log::{Body, Log};
use indexmap::IndexSet;
use std::alloc::{AllocError, Global};

/// How many items of a bounded queue have bars at most, and how many calls are shown at most only because they overlap
/// one that the fault names.
const LIMIT: usize = 300;

/// How many calls are shown at most of a log without a fault.
const FIRST: usize = 100;

/// The calls that a page shows.
#[derive(Drop)]
pub struct Choice {
    /// Of each call of the log whether the page shows it.
    pub marks: Vec<bool>,
    /// How many calls that overlap one of the fault's are left out.
    pub left_out: usize,
}

/// The times of a call that the fault names.
#[derive(Clone, Copy)]
struct Span {
    begin: u64,
    /// The last end of this call and of those that began before it.
    end: u64,
}

/// Marks the call at a place.
fn mark(marks: &mut Vec<bool>, place: usize) {
    if place < marks.len() {
        marks[place] = true;
    }
}

/// Whether the call at a place is marked.
fn is_marked(marks: &[bool], place: usize) -> bool {
    marks.get(place).copied().unwrap_or(false)
}

/// Marks the calls of a stay.
fn mark_stay(
    alloc: Global,
    log: &Log,
    marks: &mut Vec<bool>,
    stay: &Stay,
    is_last: bool,
) -> Result<(), AllocError> {
    let stay = &in_whole(alloc, log, stay)?;
    match stay {
        Stay::Taken { send, take, .. } => {
            mark(marks, *send);
            mark(marks, *take);
        }
        Stay::Left { sends, .. } => {
            for send in sends {
                mark(marks, *send);
            }
            if let Some(next) = next_of(log, stay, is_last) {
                mark(marks, next);
            }
        }
    }
    if let Some(closed) = stay.closed() {
        mark(marks, closed);
    }
    Ok(())
}

/// The sends of too many items that a page names: of many the first.
pub fn named_sends(sends: &[usize]) -> &[usize] {
    &sends[..sends.len().min(LIMIT)]
}

/// Marks the calls that a fault names: of many items those of the first.
fn mark_named(
    alloc: Global,
    log: &Log,
    marks: &mut Vec<bool>,
    fault: &Fault,
) -> Result<(), AllocError> {
    match fault {
        Fault::NeverSent { take } => mark(marks, *take),
        Fault::TakenBeforeSent { send, take } => {
            mark(marks, *send);
            mark(marks, *take);
        }
        Fault::TakenTwice { first, second } => {
            mark(marks, *first);
            mark(marks, *second);
        }
        Fault::Overtaken {
            stay,
            later_send,
            later_take,
        } => {
            mark_stay(alloc, log, marks, stay, true)?;
            mark(marks, *later_send);
            mark(marks, *later_take);
        }
        Fault::NotEmpty { call, stays } => {
            mark(marks, *call);
            for (at, stay) in stays.iter().take(MANY).enumerate() {
                mark_stay(alloc, log, marks, stay, at.saturating_add(1) == stays.len())?;
            }
        }
        Fault::Reopened { closed, send } => {
            mark(marks, *closed);
            mark(marks, *send);
        }
        Fault::ClosedEarly { call } | Fault::NotFull { call } => mark(marks, *call),
        Fault::TooMany { call, sends } => {
            mark(marks, *call);
            for send in named_sends(sends.as_slice()) {
                mark(marks, *send);
            }
        }
        Fault::NoOrder => {}
    }
    Ok(())
}

/// Of each item the call that took it.
fn takes(alloc: Global, log: &Log) -> Result<Vec<Option<Call>>, AllocError> {
    let mut takes = vec![in alloc; None; log.items]?;
    for call in &log.calls {
        if let Act::Took(item) = call.act {
            if let Some(take) = takes.as_mut_slice().get_mut(item as usize) {
                *take = Some(*call);
            }
        }
    }
    Ok(takes)
}

/// The begins of the takes that haven't returned, in order.
fn waits(alloc: Global, log: &Log) -> Result<Vec<u64>, AllocError> {
    let mut waits = Vec::new(alloc);
    for call in &log.calls {
        if matches!(call.act, Act::Taking) {
            waits.push(call.begin)?;
        }
    }
    waits.sort()?;
    Ok(waits)
}

/// The call that took the item that a call sent.
fn take_of(takes: &[Option<Call>], send: &Call) -> Option<Call> {
    let Act::Send(item) = send.act else {
        return None;
    };
    takes.get(item as usize).copied()?
}

/// Until when a queue held too many of the items of these sends: until enough of their takes had begun, counting takes that
/// haven't returned, that the rest fits. None if the rest never fits.
pub fn held_until(alloc: Global, log: &Log, sends: &[usize]) -> Result<Option<u64>, AllocError> {
    let takes = takes(alloc, log)?;
    let mut begins = Vec::new(alloc);
    for send in sends {
        if let Some(call) = log.calls.get(*send) {
            if let Some(take) = take_of(takes.as_slice(), call) {
                begins.push(take.begin)?;
            }
        }
    }
    let untaken = sends.len() - begins.len().min(sends.len());
    let waits = waits(alloc, log)?;
    begins.extend_from_slice(&waits[..untaken.min(waits.len())])?;
    begins.sort()?;
    let capacity = log.rules.capacity.unwrap_or(0) as usize;
    let more = sends.len().saturating_sub(capacity).saturating_sub(1);
    Ok(begins.get(more).copied())
}

/// Marks the first sends of items that can have been in the queue at a time of this call.
fn mark_inside(
    alloc: Global,
    log: &Log,
    full: &Call,
    marks: &mut Vec<bool>,
) -> Result<(), AllocError> {
    let takes = takes(alloc, log)?;
    let end = full.end.unwrap_or(u64::MAX);
    let mut inside = 0usize;
    for (place, call) in log.calls.iter().enumerate() {
        let is_gone = match take_of(takes.as_slice(), call) {
            Some(take) => take.end.unwrap_or(u64::MAX) < full.begin,
            None => false,
        };
        if inside < LIMIT && matches!(call.act, Act::Send(_)) && call.begin <= end && !is_gone {
            mark(marks, place);
            inside = inside.saturating_add(1);
        }
    }
    Ok(())
}

/// Marks the first takes that haven't returned, which may have got items of a queue that held too many.
fn mark_waits(log: &Log, marks: &mut Vec<bool>) {
    let mut waits = 0usize;
    for (place, call) in log.calls.iter().enumerate() {
        if waits < LIMIT && matches!(call.act, Act::Taking) {
            mark(marks, place);
            waits = waits.saturating_add(1);
        }
    }
}

/// Marks the calls that a page of a fault always has: those that the fault names, the first close if a take found the
/// end, the sends of the items that can have been in a queue that wasn't full, and the takes that haven't returned if the
/// queue held too many.
fn mark_fault(
    alloc: Global,
    log: &Log,
    fault: &Fault,
    marks: &mut Vec<bool>,
) -> Result<(), AllocError> {
    mark_named(alloc, log, marks, fault)?;
    match fault {
        Fault::NotEmpty { call, .. } if found_end(log, *call) => {
            if let Some(close) = first_close(log) {
                mark(marks, close);
            }
            Ok(())
        }
        Fault::NotFull { call } => match log.calls.get(*call).copied() {
            Some(full) => mark_inside(alloc, log, &full, marks),
            None => Ok(()),
        },
        Fault::TooMany { .. } => {
            mark_waits(log, marks);
            Ok(())
        }
        _ => Ok(()),
    }
}

/// The bodies of the items of the marked calls.
fn bodies(alloc: Global, log: &Log, marks: &[bool]) -> Result<IndexSet<Body>, AllocError> {
    let mut bodies = IndexSet::new(alloc);
    for (place, marked) in marks.iter().enumerate() {
        if let (true, Some(body)) = (*marked, log.body_at(place)) {
            let _new = bodies.insert(body)?;
        }
    }
    Ok(bodies)
}

/// The times of the marked calls, in the order of their begins. One that hasn't returned counts at its begin alone, since it
/// overlaps all that follows.
fn spans(alloc: Global, log: &Log, marks: &[bool]) -> Result<Vec<Span>, AllocError> {
    let mut spans = Vec::new(alloc);
    for (place, call) in log.calls.iter().enumerate() {
        if is_marked(marks, place) {
            spans.push(Span {
                begin: call.begin,
                end: call.end.unwrap_or(call.begin),
            })?;
        }
    }
    spans.sort_by_key(|span| span.begin)?;
    let mut last = 0;
    for at in 0..spans.len() {
        if let Some(span) = spans.as_mut_slice().get_mut(at) {
            last = last.max(span.end);
            span.end = last;
        }
    }
    Ok(spans)
}

/// Whether the call at a place overlaps one of the spans.
fn overlaps(log: &Log, place: usize, spans: &[Span]) -> bool {
    let Some(call) = log.calls.get(place) else {
        return false;
    };
    let end = call.end.unwrap_or(u64::MAX);
    let begun = spans.partition_point(|span| span.begin <= end);
    match spans.get(begun.wrapping_sub(1)) {
        Some(span) => call.begin <= span.end,
        None => false,
    }
}

/// Whether an item has one of these bodies.
fn is_among(body: Option<Body>, bodies: &IndexSet<Body>) -> bool {
    match body {
        Some(body) => bodies.contains(&body),
        None => false,
    }
}

/// Marks the calls of these items, and some that overlap one of the spans. Returns how many of the latter are left out.
fn mark_beside(log: &Log, bodies: &IndexSet<Body>, spans: &[Span], marks: &mut Vec<bool>) -> usize {
    let (mut beside, mut left_out) = (0usize, 0usize);
    for place in 0..log.notes.lines.len() {
        if is_marked(marks, place) {
            continue;
        }
        if is_among(log.body_at(place), bodies) {
            mark(marks, place);
        } else if overlaps(log, place, spans) {
            if beside < LIMIT {
                mark(marks, place);
                beside = beside.saturating_add(1);
            } else {
                left_out = left_out.saturating_add(1);
            }
        }
    }
    left_out
}

/// The calls that the page of a fault shows: those that the fault names, those of the same items, and of the others that overlap
/// one of those that it names the first 300 in the log's order. If it names none, the first calls of the log.
pub fn beside_fault(alloc: Global, log: &Log, fault: &Fault) -> Result<Choice, AllocError> {
    if matches!(fault, Fault::NoOrder) {
        return first_calls(alloc, log);
    }
    let mut marks = vec![in alloc; false; log.calls.len()]?;
    mark_fault(alloc, log, fault, &mut marks)?;
    let bodies = bodies(alloc, log, marks.as_slice())?;
    let spans = spans(alloc, log, marks.as_slice())?;
    let left_out = mark_beside(log, &bodies, spans.as_slice(), &mut marks);
    Ok(Choice { marks, left_out })
}

/// The first calls of the log.
pub fn first_calls(alloc: Global, log: &Log) -> Result<Choice, AllocError> {
    let marks = vec![in alloc; true; log.calls.len().min(FIRST)]?;
    Ok(Choice { marks, left_out: 0 })
}
