//! Lines of a log as JSON: on the page of a fault, and below the line of a verdict those that the line names.

use crate::judging::verdict_line::{FEW, in_whole, next_of};
use cc_judge::{Fault, Stay, Verdict};
use cc_log::{Body, Log, Said, Shown, body_text, item_text};
use std::alloc::{AllocError, Global};

/// Whether a character isn't written as it is: JSON escapes it, or the page would end its text there.
fn is_escaped(c: char) -> bool {
    c < ' ' || c == '"' || c == '\\' || c == '<'
}

/// A text in quotes, as JSON has it in a page.
pub fn quoted(alloc: Global, plain: &str) -> Result<String, AllocError> {
    let mut text = String::from_str(alloc, "\"")?;
    for piece in plain.split_inclusive(is_escaped) {
        match piece.strip_suffix(is_escaped) {
            Some(front) => {
                text.push_str(front)?;
                let byte = piece.as_bytes().last().copied().unwrap_or(0);
                let code = format!(in alloc; "\\u{byte:04x}")?;
                text.push_str(code.as_str())?;
            }
            None => text.push_str(piece)?,
        }
    }
    text.push_str("\"")?;
    Ok(text)
}

/// An item as JSON: as its line may have it, or on a page, whose words are texts, since a browser's numbers have 53
/// bits.
fn item_json(alloc: Global, body: Body, on_page: bool) -> Result<String, AllocError> {
    if on_page {
        body_text(alloc, body, "\"")
    } else {
        item_text(alloc, body)
    }
}

/// The act of a call, as JSON.
fn act_json(alloc: Global, said: Said, on_page: bool) -> Result<String, AllocError> {
    let (key, body, answer) = match said {
        Said::Send(body) => ("send", Some(body), ""),
        Said::Full(body) => ("send", Some(body), ",\"answer\":\"full\""),
        Said::Closed(body) => ("send", Some(body), ",\"answer\":\"closed\""),
        Said::Took(body) => ("take", Some(body), ""),
        Said::FoundNone | Said::Taking => ("take", None, ""),
        Said::Ended => ("take", None, ",\"answer\":\"ended\""),
        Said::Close => return String::from_str(alloc, "\"close\":true"),
    };
    let item = match body {
        Some(body) => item_json(alloc, body, on_page)?,
        None => String::from_str(alloc, "null")?,
    };
    format!(in alloc; "\"{key}\":{item}{answer}")
}

/// The JSON of a call without its first bracket. On a page the times are texts, too.
pub fn call_json(
    alloc: Global,
    log: &Log,
    shown: Shown,
    on_page: bool,
) -> Result<String, AllocError> {
    let name = match log.threads.get_index(shown.thread as usize) {
        Some((name, _)) => quoted(alloc, name.as_str())?,
        None => quoted(alloc, "")?,
    };
    let mark = if on_page { "\"" } else { "" };
    let act = act_json(alloc, shown.line.said, on_page)?;
    let begin = shown.line.begin;
    match shown.line.end {
        Some(end) => format!(in alloc;
            "\"thread\":{name},\"begin\":{mark}{begin}{mark},\"end\":{mark}{end}{mark},{act}}}"
        ),
        None => format!(in alloc; "\"thread\":{name},\"begin\":{mark}{begin}{mark},{act}}}"),
    }
}

/// Adds the places of the calls of a stay that the line of a verdict names.
fn push_stay(
    alloc: Global,
    places: &mut Vec<usize>,
    log: &Log,
    stay: &Stay,
    is_last: bool,
) -> Result<(), AllocError> {
    let stay = &in_whole(alloc, log, stay)?;
    match stay {
        Stay::Taken { send, take, .. } => places.extend_from_slice(&[*send, *take])?,
        Stay::Left { sends, .. } => {
            places.extend_from_slice(&sends[..sends.len().min(FEW)])?;
            if let Some(next) = next_of(log, stay, is_last) {
                places.push(next)?;
            }
        }
    }
    if let Some(closed) = stay.closed() {
        places.push(closed)?;
    }
    Ok(())
}

/// The places of the calls that the line of a fault names.
fn named(alloc: Global, log: &Log, fault: &Fault) -> Result<Vec<usize>, AllocError> {
    let mut places = Vec::new(alloc);
    match fault {
        Fault::NeverSent { take: call } | Fault::ClosedEarly { call } | Fault::NotFull { call } =>
            places.push(*call)?,
        Fault::TakenBeforeSent {
            send: one,
            take: other,
        }
        | Fault::TakenTwice {
            first: one,
            second: other,
        }
        | Fault::Reopened {
            closed: one,
            send: other,
        } => places.extend_from_slice(&[*one, *other])?,
        Fault::Overtaken {
            stay,
            later_send,
            later_take,
        } => {
            push_stay(alloc, &mut places, log, stay, true)?;
            places.extend_from_slice(&[*later_send, *later_take])?;
        }
        Fault::NotEmpty { call, stays } => {
            places.push(*call)?;
            for (at, stay) in stays.iter().take(FEW).enumerate() {
                push_stay(
                    alloc,
                    &mut places,
                    log,
                    stay,
                    at.saturating_add(1) == stays.len(),
                )?;
            }
        }
        Fault::TooMany { call, sends } => {
            places.push(*call)?;
            places.extend_from_slice(&sends[..sends.len().min(FEW)])?;
        }
        Fault::NoOrder => {}
    }
    Ok(places)
}

/// The lines of the calls at these places, in the log's order.
fn lines_of(alloc: Global, log: &Log, places: &mut Vec<usize>) -> Result<String, AllocError> {
    places.sort()?;
    let mut text = String::new(alloc);
    let mut last = None;
    for place in places.iter() {
        if last == Some(*place) {
            continue;
        }
        last = Some(*place);
        if let (Some(line), Some(shown)) = (log.line_of(*place), log.shown(*place)) {
            let call = call_json(alloc, log, shown, false)?;
            text.push_str(format!(in alloc; "line {line}: {{{call}\n")?.as_str())?;
        }
    }
    Ok(text)
}

/// The lines that the line of a verdict names.
pub fn named_lines(alloc: Global, log: &Log, verdict: &Verdict) -> Result<String, AllocError> {
    let mut places = match verdict {
        Verdict::Fault(fault) => named(alloc, log, fault)?,
        Verdict::Undecided(Some(tie)) => {
            let mut places = Vec::new(alloc);
            places.extend_from_slice(&[tie.earlier as usize, tie.later as usize])?;
            places
        }
        Verdict::Clean | Verdict::Undecided(None) => Vec::new(alloc),
    };
    lines_of(alloc, log, &mut places)
}
