//! The calls that a part of a log may lack.
ghost use Rattle.std.specs.Prelude.{◌≡◌, ◌++◌, slice_get, slice_set, unwrap_or, true, false, IfErr, OnOk, IfOk};
ghost use Rattle.cc_judge.specs.Late.{early_close, lacking, mark_sent, mark_taken, padded, sent_items, taken_items};
ghost use Rattle.cc_log.specs.Names.{LogFault};

use crate::fault::LogFault;
use crate::narrow::narrow;
use cc_judge::{Act, Call};
use std::alloc::{AllocError, Global};

/// Of each item whether a call sent it.
fn sent_items(alloc: Global, calls: &[Call], items: usize) -> Result<Vec<bool>, AllocError>
    ensures { IfOk result (λ marks. marks.items ≡ sent_items items calls.now) }
{
    let mut marks = vec![in alloc; false; items]?;
    for call in calls {
        mark_sent(&mut marks, call.act);
    }
    Ok(marks)
}

/// Of each item whether a call took it.
pub fn taken_items(alloc: Global, calls: &[Call], items: usize) -> Result<Vec<bool>, AllocError>
    ensures { IfOk result (λ marks. marks.items ≡ taken_items items calls.now) }
{
    let mut marks = vec![in alloc; false; items]?;
    for call in calls {
        mark_taken(&mut marks, call.act);
    }
    Ok(marks)
}

/// Marks an item.
fn mark(marks: &mut Vec<bool>, item: u32)
    ensures { marks.new.items ≡ slice_set marks.old.items item true }
{
    if (item as usize) < marks.len() {
        marks[item as usize] = true;
    }
}

/// Marks the item that an act sent, if it sent one.
fn mark_sent(marks: &mut Vec<bool>, act: Act)
    ensures { marks.new.items ≡ mark_sent marks.old.items act }
{
    if let Act::Send(item) = act {
        mark(marks, item);
    }
}

/// Marks the item that an act took, if it took one.
fn mark_taken(marks: &mut Vec<bool>, act: Act)
    ensures { marks.new.items ≡ mark_taken marks.old.items act }
{
    if let Act::Took(item) = act {
        mark(marks, item);
    }
}

/// Whether an item is marked.
pub fn is_marked(marks: &Vec<bool>, item: usize) -> bool
    ensures { result ≡ unwrap_or (slice_get marks.now.items item) false }
{
    marks.get(item).copied().unwrap_or(false)
}

/// Adds what the log may lack of an item.
fn push_lacking(
    calls: &mut Vec<Call>,
    is_sent: bool,
    is_taken: bool,
    item: usize,
) -> Result<(), LogFault>
    ensures calls { OnOk result (calls.new.items ≡ calls.old.items ++ lacking is_sent is_taken item) }
    ensures memory { IfErr result (λ fault. fault ≡ LogFault.Memory) }
{
    let act = match (is_sent, is_taken) {
        (false, true) => Act::Send(narrow(item)?),
        (true, false) => Act::Taking,
        _ => return Ok(()),
    };
    calls.push(Call {
        begin: 0,
        end: None,
        act,
    })?;
    Ok(())
}

/// Adds the close that the log may lack, if closes are judged.
fn push_close(calls: &mut Vec<Call>, closes: bool) -> Result<(), LogFault>
    ensures calls { OnOk result (calls.new.items ≡ calls.old.items ++ early_close closes) }
    ensures memory { IfErr result (λ fault. fault ≡ LogFault.Memory) }
{
    if closes {
        calls.push(Call {
            begin: 0,
            end: None,
            act: Act::Close,
        })?;
    }
    Ok(())
}

/// Adds the calls that a part of a log may lack: of each item that no line sent, a send, of each that no line took, a
/// take, and a close if closes are judged. All of these began before the others and haven't returned.
pub fn pad(
    alloc: Global,
    part: bool,
    closes: bool,
    calls: &mut Vec<Call>,
    items: usize,
) -> Result<(), LogFault>
    ensures calls { OnOk result (calls.new.items ≡ padded part closes calls.old.items items) }
    ensures memory { IfErr result (λ fault. fault ≡ LogFault.Memory) }
{
    if !part {
        return Ok(());
    }
    let sent = sent_items(alloc, calls, items)?;
    let taken = taken_items(alloc, calls, items)?;
    for item in 0..items {
        let is_sent = is_marked(&sent, item);
        let is_taken = is_marked(&taken, item);
        push_lacking(calls, is_sent, is_taken, item)?;
    }
    push_close(calls, closes)
}
