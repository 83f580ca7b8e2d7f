//! A round on one queue: threads send while threads take until the queue has ended. Each gives back its pass, with the receipts
//! of all its calls.
ghost use Rattle.std.specs.Prelude.{◌≡◌, [], ◌∷◌, ◌++◌, length, map};
ghost use Rattle.std.specs.List.{All};
ghost use Rattle.std.specs.Thread.{IsSync};
ghost use Rattle.cc_tests.specs.Rounds.{IsFresh, HasClosed, HasKept, HasPlayed, HaveKept};
ghost use Rattle.cc_drive.specs.Names.{Answer};
ghost use Rattle.cc_queue.specs.Headline.{history, name};
ghost use Rattle.cc_queue.specs.Receipts.{got, sent};
ghost use Rattle.cc_runs.specs.ChainLaws.{IsLastAnswer};
ghost use Rattle.cc_steps.specs.Walk.{fresh_from};

use cc_audit::{SendReceipt, TakeReceipt};
use cc_model::{Body, CloseAnswer, Config, SendAnswer, TakeAnswer};
use cc_queue::{Opened, Queue, Receiver, Sender, close, send_until, take_until};
use std::alloc::Global;
use std::process::Abort;
use std::sync::Wait;
use std::thread::{Threads, join, map_vec};

/// The receipts of a round, and the answer of its close.
#[derive(Drop)]
pub struct RoundReceipts {
    /// Those of each sender, in the order of its calls. The last one closes, and has none.
    pub sends: Vec<Vec<SendReceipt>>,
    /// Those of each receiver.
    pub takes: Vec<Vec<TakeReceipt>>,
    pub close: CloseAnswer,
}

/// A body of one to four words for each number below 2^62: none of its words is in that of another number.
fn body_of(number: u64) -> Body {
    let first = number << 2;
    match number % 4 {
        0 => Body::one(first),
        1 => Body::two(first, first | 1),
        2 => Body::three(first, first | 1, first | 2),
        _ => Body::four(first, first | 1, first | 2, first | 3),
    }
}

/// Adds one more at the end.
fn add<R: Abort, X: Drop>(rt: &R, list: &mut Vec<X>, one: X)
    ensures { list.new.items ≡ list.old.items ++ one ∷ [] }
{
    assert!(rt; list.push(one).is_ok(), "memory");
}

/// Sends the bodies of the numbers below `items` in turn, each again when the queue is full, and keeps a receipt of each.
#[tactic(auto, using(crate::proofs::Rounds::at_first, crate::proofs::Rounds::has_kept))]
fn send_all<R: Abort + Wait>(
    rt: &R,
    alloc: Global,
    queue: &Queue,
    items: u64,
    sender: Sender,
) -> (Sender, Vec<SendReceipt>)
    requires { IsFresh queue.now sender }
    ensures { HasKept sent queue.now sender.number result.0 result.1.items }
{
    sender.is_sound();
    let number = sender.number();
    let mut sender = sender;
    let mut receipts = Vec::new(alloc);
    for item in 0..items {
        let body = body_of(item);
        let Ok((after, answer)) = send_until(queue, rt, sender, body) else {
            panic!(rt; "an exhausted sender")
        };
        let SendAnswer::Accepted { place } = answer else {
            panic!(rt; "a send wasn't accepted")
        };
        let receipt = SendReceipt {
            sender: number,
            number: after.begun(),
            place,
            body,
        };
        add(rt, &mut receipts, receipt);
        sender = after;
    }
    (sender, receipts)
}

/// Takes until the queue has ended, and keeps a receipt of each item.
#[tactic(auto, using(crate::proofs::Rounds::at_first))]
fn take_all<R: Abort + Wait>(
    rt: &R,
    alloc: Global,
    queue: &Queue,
    receiver: Receiver,
) -> (Receiver, Vec<TakeReceipt>)
    requires { IsFresh queue.now receiver }
    ensures { HasKept got queue.now receiver.number result.0 result.1.items }
{
    receiver.is_sound();
    let number = receiver.number();
    let mut receiver = receiver;
    let mut receipts = Vec::new(alloc);
    for _ in rt.forever() {
        let (after, answer) = take_until(queue, rt, receiver);
        receiver = after;
        let TakeAnswer::Got(item) = answer else {
            return (receiver, receipts);
        };
        let receipt = TakeReceipt {
            receiver: number,
            item,
        };
        add(rt, &mut receipts, receipt);
    }
    unreachable!()
}

/// The passes, and the receipts of each.
fn apart<R: Abort, P: Drop, X: Drop>(
    rt: &R,
    alloc: Global,
    ends: Vec<(P, Vec<X>)>,
) -> (Vec<P>, Vec<Vec<X>>)
    ensures passes { result.0.items ≡ map (λ e. e.0) ends.items }
    ensures receipts { map (λ k. k.items) result.1.items ≡ map (λ e. e.1.items) ends.items }
{
    let mut passes = Vec::new(alloc);
    let mut kept = Vec::new(alloc);
    for (pass, receipts) in ends {
        add(rt, &mut passes, pass);
        add(rt, &mut kept, receipts);
    }
    (passes, kept)
}

/// A thread for each of these senders, in which it sends all its items. Returns when all are joined.
fn send_side<R: Threads + Wait + Sync + Abort>(
    rt: &R,
    alloc: Global,
    queue: &Queue,
    items: u64,
    senders: Vec<Sender>,
) -> (Vec<Sender>, Vec<Vec<SendReceipt>>)
    requires own { All (IsFresh queue.now) senders.items }
    requires row { fresh_from queue.now 0 senders.items }
    ensures count { length result.0.items ≡ length senders.items }
    ensures kept { HaveKept sent queue.now 0 result.0.items (map (λ k. k.items) result.1.items) }
{
    let send = move |sender: Sender| -> (Sender, Vec<SendReceipt>)
        requires { IsFresh queue.now sender }
        ensures { HasKept sent queue.entry.now sender.number result.0 result.1.items }
    { send_all(rt, alloc, queue, items, sender) };
    let Ok(ends) = map_vec(rt, senders, &send) else {
        panic!(rt; "memory")
    };
    apart(rt, alloc, ends)
}

/// A thread for each of these receivers, in which it takes until the queue has ended.
fn take_side<R: Threads + Wait + Sync + Abort>(
    rt: &R,
    alloc: Global,
    queue: &Queue,
    receivers: Vec<Receiver>,
) -> (Vec<Receiver>, Vec<Vec<TakeReceipt>>)
    requires own { All (IsFresh queue.now) receivers.items }
    requires row { fresh_from queue.now queue.now.setting.config.senders receivers.items }
    ensures count { length result.0.items ≡ length receivers.items }
    ensures kept { HaveKept got queue.now queue.now.setting.config.senders result.0.items (map (λ k. k.items) result.1.items) }
{
    let take = move |receiver: Receiver| -> (Receiver, Vec<TakeReceipt>)
        requires { IsFresh queue.now receiver }
        ensures { HasKept got queue.entry.now receiver.number result.0 result.1.items }
    { take_all(rt, alloc, queue, receiver) };
    let Ok(ends) = map_vec(rt, receivers, &take) else {
        panic!(rt; "memory")
    };
    apart(rt, alloc, ends)
}

/// Closes the queue by a sender that made no other call.
fn close_by<R: Wait>(rt: &R, queue: &Queue, closer: Sender) -> (Sender, CloseAnswer)
    requires { IsFresh queue.now closer }
    ensures kept { HasKept sent queue.now closer.number result.0 [] }
    ensures closed { IsLastAnswer (name result.0) (history result.0) (Answer.Close result.1) }
{
    closer.is_sound();
    close(queue, rt, closer)
}

/// Sends by all senders but the last, and closes by that one when they are joined.
fn send_and_close<R: Threads + Wait + Sync + Abort>(
    rt: &R,
    alloc: Global,
    queue: &Queue,
    items: u64,
    senders: Vec<Sender>,
) -> (Vec<Sender>, Vec<Vec<SendReceipt>>, CloseAnswer)
    requires { fresh_from queue.now 0 senders.items }
    ensures count { length result.0.items ≡ length senders.items }
    ensures kept { HaveKept sent queue.now 0 result.0.items (map (λ k. k.items) result.1.items) }
    ensures closed { HasClosed result.2 result.0.items }
{
    let mut senders = senders;
    let Some(closer) = senders.pop() else {
        panic!(rt; "no sender")
    };
    let (mut senders, mut sends) = send_side(rt, alloc, queue, items, senders);
    let (closer, close) = close_by(rt, queue, closer);
    add(rt, &mut senders, closer);
    add(rt, &mut sends, Vec::new(alloc));
    (senders, sends, close)
}

/// Both sides at once.
fn both_sides<R: Threads + Wait + Sync + Abort>(
    rt: &R,
    alloc: Global,
    queue: &Queue,
    items: u64,
    senders: Vec<Sender>,
    receivers: Vec<Receiver>,
) -> (
    (Vec<Receiver>, Vec<Vec<TakeReceipt>>),
    (Vec<Sender>, Vec<Vec<SendReceipt>>, CloseAnswer),
)
    requires senders { fresh_from queue.now 0 senders.items }
    requires own { All (IsFresh queue.now) receivers.items }
    requires receivers { fresh_from queue.now queue.now.setting.config.senders receivers.items }
    ensures count_receivers { length result.0.0.items ≡ length receivers.items }
    ensures takes { HaveKept got queue.now queue.now.setting.config.senders result.0.0.items (map (λ k. k.items) result.0.1.items) }
    ensures count_senders { length result.1.0.items ≡ length senders.items }
    ensures sends { HaveKept sent queue.now 0 result.1.0.items (map (λ k. k.items) result.1.1.items) }
    ensures closed { HasClosed result.1.2 result.1.0.items }
{
    join(
        rt,
        move || -> (Vec<Receiver>, Vec<Vec<TakeReceipt>>)
            requires { IsSync R.row × All (IsFresh queue.now) receivers.items × fresh_from queue.now queue.now.setting.config.senders receivers.items }
            ensures count { length result.0.items ≡ length receivers.items }
            ensures kept { HaveKept got queue.entry.now queue.entry.now.setting.config.senders result.0.items (map (λ k. k.items) result.1.items) }
        { take_side(rt, alloc, queue, receivers) },
        move || -> (Vec<Sender>, Vec<Vec<SendReceipt>>, CloseAnswer)
            requires { IsSync R.row × fresh_from queue.now 0 senders.items }
            ensures count { length result.0.items ≡ length senders.items }
            ensures kept { HaveKept sent queue.entry.now 0 result.0.items (map (λ k. k.items) result.1.items) }
            ensures closed { HasClosed result.2 result.0.items }
        { send_and_close(rt, alloc, queue, items, senders) },
    )
}

/// Opens a queue, and uses each of its passes in a thread. The last sender closes when each other has sent `items` items.
pub fn play_round<R: Threads + Wait + Sync + Abort>(
    rt: &R,
    alloc: Global,
    config: &Config,
    items: u64,
) -> (Opened, RoundReceipts)
    ensures { HasPlayed config.now result.0.queue result.0.senders.items result.0.receivers.items (map (λ k. k.items) result.1.sends.items) (map (λ k. k.items) result.1.takes.items) result.1.close }
{
    let Opened {
        queue,
        senders,
        receivers,
    } = Queue::open(alloc, config).expect(rt, "the queue opens");
    let ((receivers, takes), (senders, sends, close)) = both_sides(
        rt, alloc, &queue, items, senders, receivers,
    );
    let opened = Opened {
        queue,
        senders,
        receivers,
    };
    (
        opened,
        RoundReceipts {
            sends,
            takes,
            close,
        },
    )
}
