//! The items of a log: each body is an item by its place, in the order in which the bodies first appear.
ghost use Rattle.std.specs.Prelude.{◌≡◌, Some, Ok, IfOk, IfErr, if◌then◌else◌};
ghost use Rattle.indexmap.specs.IndexMap.{keys};
ghost use Rattle.indexmap.specs.IndexSet.{insert_key};
ghost use Rattle.cc_log.specs.Answers.{Refuses};
ghost use Rattle.cc_log.specs.Line.{Body};
ghost use Rattle.cc_log.specs.Log.{act_of, differs, item_in, item_of, same_body, sends, unsent, with_item};
ghost use Rattle.cc_log.specs.State.{sender_in};
ghost use Rattle.cc_log.specs.Names.{LogFault};

use crate::fault::LogFault;
use crate::line::{Body, Said, item_text};
use crate::narrow::narrow;
use cc_judge::Act;
use indexmap::IndexMap;
use std::alloc::Global;

/// The bodies, each with the number of the line that sent its item, if one did.
pub type Items = IndexMap<Body, Option<u32>>;

/// The item of a body that was taken.
fn taken(items: &mut Items, body: Body) -> Result<u32, LogFault>
    ensures item { IfOk result (λ item. item ≡ item_of (keys items.old) body) }
    ensures bodies { IfOk result (λ item. keys items.new ≡ insert_key same_body (keys items.old) body) }
    ensures senders { IfOk result (λ item. (q : Body) → sender_in items.new q ≡ sender_in items.old q) }
    ensures memory { IfErr result (λ fault. fault ≡ LogFault.Memory) }
{
    if let Some(place) = items.get_index_of(&body) {
        return narrow(place);
    }
    let (place, _) = items.insert_full(body, None)?;
    narrow(place)
}

/// The item of a body that the line with this number sent; no earlier line may have sent it.
fn sent(alloc: Global, items: &mut Items, body: Body, line: usize) -> Result<u32, LogFault>
    ensures item { IfOk result (λ item. item ≡ item_of (keys items.old) body) }
    ensures unsent { IfOk result (λ item. unsent line (sender_in items.old body) ≡ Ok tt) }
    ensures bodies { IfOk result (λ item. keys items.new ≡ insert_key same_body (keys items.old) body) }
    ensures senders { IfOk result (λ item. (q : Body) → sender_in items.new q ≡ (if same_body body q then Some line else sender_in items.old q)) }
    ensures refuses { IfErr result (λ fault. Refuses fault (unsent line (sender_in items.old body))) }
{
    let (place, known) = items.insert_full(body, Some(narrow(line)?))?;
    if let Some(Some(first)) = known {
        return Err(LogFault::SentTwice {
            first: first as usize,
            second: line,
            item: item_text(alloc, body)?,
        });
    }
    narrow(place)
}

/// The act of the call of the line with this number.
pub fn act_of(alloc: Global, items: &mut Items, said: Said, line: usize) -> Result<Act, LogFault>
    ensures act { IfOk result (λ act. act ≡ act_of (keys items.old) said) }
    ensures differs { IfOk result (λ act. differs line said (sender_in items.old) ≡ Ok tt) }
    ensures bodies { IfOk result (λ act. keys items.new ≡ with_item (keys items.old) (item_in said)) }
    ensures senders { IfOk result (λ act. (q : Body) → sender_in items.new q ≡ (if sends q said then Some line else sender_in items.old q)) }
    ensures refuses { IfErr result (λ fault. Refuses fault (differs line said (sender_in items.old))) }
{
    match said {
        Said::Send(body) => Ok(Act::Send(sent(alloc, items, body, line)?)),
        Said::Took(body) => Ok(Act::Took(taken(items, body)?)),
        Said::FoundNone => Ok(Act::FoundNone),
        Said::Taking => Ok(Act::Taking),
        Said::Full(_) => Ok(Act::Full),
        Said::Closed(_) => Ok(Act::Closed),
        Said::Ended => Ok(Act::Ended),
        Said::Close => Ok(Act::Close),
    }
}
