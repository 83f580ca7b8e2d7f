//! Receipts of histories that no queue leaves, and many of them.
ghost use Rattle.std.specs.Prelude.{◌≡◌, ◌<◌, length};

use cc_audit::{SendReceipt, TakeReceipt, Verdict, audit, send_receipts, take_receipts, total};
use cc_model::{
    Answer, Body, Call, CloseAnswer, Entry, History, Item, Pass, SendAnswer, TakeAnswer,
};
use cc_play::play::audit_of;
use std::alloc::Global;
use std::process::Abort;

fn fault(kind: u8, place: u64) -> Verdict {
    Verdict::Fault { kind, place }
}

/// The item at a place of a queue whose 64 senders go round.
fn item_at(place: u32) -> Item {
    Item {
        place: u64::from(place),
        sender: (place % 64).saturating_add(1),
        number: (place / 64).saturating_add(1),
        body: Body::one(u64::from(place)),
    }
}

/// The receipt of its sender.
fn sent(item: Item) -> SendReceipt {
    SendReceipt {
        sender: item.sender,
        number: item.number,
        place: item.place,
        body: item.body,
    }
}

/// The receipt of a receiver.
fn taken(item: Item) -> TakeReceipt {
    TakeReceipt { receiver: 1, item }
}

/// Receipts have this verdict.
fn is_found<R: Abort>(
    rt: &R,
    alloc: Global,
    sends: &[SendReceipt],
    takes: &[TakeReceipt],
    total: Option<u64>,
    verdict: Verdict,
) {
    let found = audit(alloc, sends, takes, total).expect(rt, "memory");
    assert!(rt; found == verdict);
}

const COUNT: u32 = 20_000;

/// The sends, as their receipts may come in turns.
fn mixed_sends<R: Abort>(rt: &R, alloc: Global) -> Vec<SendReceipt> {
    let mut sends = Vec::new(alloc);
    for i in 0..COUNT {
        let item = item_at(i * 7919 % COUNT);
        sends.push(sent(item)).expect(rt, "memory");
    }
    sends
}

/// The takes of their items, the last one first.
fn reversed_takes<R: Abort>(rt: &R, alloc: Global) -> Vec<TakeReceipt> {
    let mut takes = Vec::new(alloc);
    for i in 0..COUNT {
        let item = item_at(COUNT - 1 - i);
        takes.push(taken(item)).expect(rt, "memory");
    }
    takes
}

/// An item at the last place, which its sender numbered as its first.
fn last() -> Item {
    Item {
        place: u64::MAX,
        ..item_at(0)
    }
}

/// With one send more, of the last item, its sender's sends are out of order.
fn has_disorder<R: Abort>(
    rt: &R,
    alloc: Global,
    sends: &mut Vec<SendReceipt>,
    takes: &[TakeReceipt],
) {
    sends.push(sent(last())).expect(rt, "memory");
    let all = Some(u64::from(COUNT));
    is_found(rt, alloc, sends, takes, all, fault(6, u64::MAX));
}

/// With one take more, of the last item, there is a gap below it.
fn has_gap<R: Abort>(rt: &R, alloc: Global, sends: &[SendReceipt], takes: &mut Vec<TakeReceipt>) {
    takes.push(taken(last())).expect(rt, "memory");
    let gap = fault(5, u64::from(COUNT));
    is_found(rt, alloc, sends, takes, None, gap);
}

#[test]
fn many_receipts(rt: HostRuntime) {
    let alloc = rt.alloc();
    let mut sends = mixed_sends(&rt, alloc);
    let mut takes = reversed_takes(&rt, alloc);
    let all = Some(u64::from(COUNT));
    is_found(&rt, alloc, &sends, &takes, all, Verdict::Clean);
    has_disorder(&rt, alloc, &mut sends, &takes);
    has_gap(&rt, alloc, &sends, &mut takes);
}

/// Writes down a call of a sender, and its answer, if it has one.
fn add_send<R: Abort>(
    rt: &R,
    history: &mut History,
    sender: u32,
    call: Call,
    number: u32,
    answer: Option<Answer>,
)
    ensures { length history.new.takes ≡ length history.old.takes }
{
    history.reserve_sends(1).expect(rt, "memory");
    history.push_sends_call(Entry {
        pass: Pass::Sender(sender),
        call,
        number,
        known: 0,
    });
    if let Some(answer) = answer {
        history.push_sends_answer(answer);
    }
}

/// Writes down a take of a group's receiver, and its answer, if it has one.
fn add_take<R: Abort>(
    rt: &R,
    history: &mut History,
    group: usize,
    receiver: u32,
    answer: Option<TakeAnswer>,
)
    requires { group < length history.old.takes }
    ensures { length history.new.takes ≡ length history.old.takes }
{
    history.reserve_takes(group, 1).expect(rt, "memory");
    history.push_takes_call(
        group,
        Entry {
            pass: Pass::Receiver(receiver),
            call: Call::Take,
            number: 0,
            known: 0,
        },
    );
    if let Some(answer) = answer {
        history.push_takes_answer(group, Answer::Take(answer));
    }
}

/// Writes down a send that was accepted.
fn add_sent<R: Abort>(rt: &R, history: &mut History, item: Item)
    ensures { length history.new.takes ≡ length history.old.takes }
{
    let answer = Answer::Send(SendAnswer::Accepted { place: item.place });
    let call = Call::Send(item.body);
    add_send(rt, history, item.sender, call, item.number, Some(answer));
}

/// Writes down a send that nobody has an item by.
fn add_other<R: Abort>(
    rt: &R,
    history: &mut History,
    sender: u32,
    number: u32,
    answer: Option<Answer>,
)
    ensures { length history.new.takes ≡ length history.old.takes }
{
    let call = Call::Send(Body::one(9));
    add_send(rt, history, sender, call, number, answer);
}

/// Writes down a take that got the item at this place.
fn add_got<R: Abort>(rt: &R, history: &mut History, group: usize, place: u32)
    requires { group < length history.old.takes }
    ensures { length history.new.takes ≡ length history.old.takes }
{
    let answer = TakeAnswer::Got(item_at(place));
    add_take(rt, history, group, 1, Some(answer));
}

/// Writes down takes of a group that got the items at these places.
fn add_takes<R: Abort>(rt: &R, history: &mut History, group: usize, places: &str)
    requires { group < length history.old.takes }
    ensures { length history.new.takes ≡ length history.old.takes }
{
    for place in places.bytes() {
        add_got(rt, history, group, u32::from(place % 16));
    }
}

/// The sends of the items at the first three places.
fn add_items<R: Abort>(rt: &R, history: &mut History)
    ensures { length history.new.takes ≡ length history.old.takes }
{
    add_sent(rt, history, item_at(0));
    add_sent(rt, history, item_at(1));
    add_sent(rt, history, item_at(2));
}

const FULL: Answer = Answer::Send(SendAnswer::Full);

const CLOSED: Answer = Answer::Send(SendAnswer::Closed);

const SHUT: Answer = Answer::Close(CloseAnswer::Shut { total: 3 });

/// The calls of senders that leave no item: a send that found the queue full, a close, a send after it, and one without an
/// answer.
fn add_other_sends<R: Abort>(rt: &R, history: &mut History)
    ensures { length history.new.takes ≡ length history.old.takes }
{
    add_other(rt, history, 1, 2, Some(FULL));
    add_send(rt, history, 2, Call::Close, 0, Some(SHUT));
    add_other(rt, history, 1, 3, Some(CLOSED));
    add_other(rt, history, 2, 2, None);
}

/// Takes of the first group that got no item: one that found the end, and one without an answer.
fn add_other_takes<R: Abort>(rt: &R, history: &mut History)
    requires { 0 < length history.old.takes }
    ensures { length history.new.takes ≡ length history.old.takes }
{
    add_take(rt, history, 0, 2, Some(TakeAnswer::Ended { total: 3 }));
    add_take(rt, history, 0, 2, None);
}

/// Takes of both groups that got the items at these places, and further ones of the first.
fn add_groups<R: Abort>(rt: &R, history: &mut History, first: &str, second: &str)
    requires { 1 < length history.old.takes }
    ensures { length history.new.takes ≡ length history.old.takes }
{
    add_takes(rt, history, 0, first);
    add_other_takes(rt, history);
    add_takes(rt, history, 1, second);
}

/// Three items were accepted, and each of two groups took those at these places.
fn two_groups<R: Abort>(rt: &R, alloc: Global, first: &str, second: &str) -> History
    ensures { length result.takes ≡ 2 }
{
    let mut history = History::new(alloc, 2).expect(rt, "memory");
    add_items(rt, &mut history);
    add_other_sends(rt, &mut history);
    add_groups(rt, &mut history, first, second);
    history
}

/// The send of the item at a place has its receipt.
fn is_sent<R: Abort>(rt: &R, receipt: &SendReceipt, place: u32) {
    assert!(rt; *receipt == sent(item_at(place)));
}

/// Its take has its receipt.
fn is_taken<R: Abort>(rt: &R, receipt: &TakeReceipt, place: u32) {
    assert!(rt; *receipt == taken(item_at(place)));
}

/// The sends of the first three items have their receipts, and no other.
fn are_sent<R: Abort>(rt: &R, receipts: &[SendReceipt]) {
    let mut place: u32 = 0;
    for receipt in receipts {
        is_sent(rt, receipt, place);
        place = place.saturating_add(1);
    }
    assert!(rt; place == 3);
}

/// Their takes have their receipts, and no other.
fn are_taken<R: Abort>(rt: &R, receipts: &[TakeReceipt]) {
    let mut place: u32 = 0;
    for receipt in receipts {
        is_taken(rt, receipt, place);
        place = place.saturating_add(1);
    }
    assert!(rt; place == 3);
}

/// The receipts of a history's sends, with the total of the close.
fn told_sends<R: Abort>(rt: &R, alloc: Global, history: &History) -> Vec<SendReceipt> {
    let sends = send_receipts(alloc, history).expect(rt, "memory");
    are_sent(rt, &sends);
    assert!(rt; total(history) == Some(3));
    sends
}

/// The first group's takes have receipts, and are clean.
fn first_is_clean<R: Abort>(rt: &R, alloc: Global, history: &History, sends: &[SendReceipt])
    requires { 0 < length history.now.takes }
{
    let takes = take_receipts(alloc, history, 0).expect(rt, "memory");
    are_taken(rt, &takes);
    is_found(rt, alloc, sends, &takes, Some(3), Verdict::Clean);
}

/// The second group's takes are this many, and have this verdict.
fn second_has<R: Abort>(
    rt: &R,
    alloc: Global,
    history: &History,
    sends: &[SendReceipt],
    count: usize,
    verdict: Verdict,
)
    requires { 1 < length history.now.takes }
{
    let takes = take_receipts(alloc, history, 1).expect(rt, "memory");
    assert!(rt; takes.len() == count);
    is_found(rt, alloc, sends, &takes, Some(3), verdict);
}

/// Audits two groups, of which the first one took all: it is clean, and the second one has this verdict.
fn are_audited<R: Abort>(rt: &R, alloc: Global, second: &str, verdict: Verdict) {
    let history = two_groups(rt, alloc, "012", second);
    let sends = told_sends(rt, alloc, &history);
    first_is_clean(rt, alloc, &history, &sends);
    second_has(rt, alloc, &history, &sends, second.len(), verdict);
}

const SECONDS: [(&str, Verdict); 6] = [
    ("012", Verdict::Clean),
    ("0", Verdict::Clean),
    ("", Verdict::Clean),
    ("02", Verdict::Fault { kind: 5, place: 1 }),
    ("12", Verdict::Fault { kind: 5, place: 0 }),
    ("010", Verdict::Fault { kind: 2, place: 0 }),
];

#[test]
fn each_group_is_audited_alone(rt: HostRuntime) {
    for (second, verdict) in SECONDS {
        are_audited(&rt, rt.alloc(), second, verdict);
    }
}

/// The verdict on two groups that took the items at these places.
fn is_told<R: Abort>(rt: &R, alloc: Global, first: &str, second: &str, verdict: Verdict) {
    let history = two_groups(rt, alloc, first, second);
    let told = audit_of(alloc, &history).expect(rt, "memory");
    assert!(rt; told == verdict);
}

const GROUPS: [(&str, &str, Verdict); 4] = [
    ("012", "0", Verdict::Clean),
    ("012", "010", Verdict::Fault { kind: 2, place: 0 }),
    ("02", "012", Verdict::Fault { kind: 5, place: 1 }),
    ("02", "010", Verdict::Fault { kind: 5, place: 1 }),
];

#[test]
fn the_first_fault_of_a_group_is_told(rt: HostRuntime) {
    for (first, second, verdict) in GROUPS {
        is_told(&rt, rt.alloc(), first, second, verdict);
    }
}
