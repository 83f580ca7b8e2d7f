//! The service of a sender's request: CC-Queue's enqueue, by the combiner of the senders' chain.
ghost use Rattle.std.specs.Prelude.{◌≡◌, ◌+◌, ◌<◌, ◌≤◌, ◌^◌, ◌==◌, if◌then◌else◌, IfSome, OnSome, IfNone, Some, None};
ghost use Rattle.cc_queue.specs.Names.{Answer, SendAnswer, Chain, Phase, Sending};
ghost use Rattle.cc_steps.specs.Walk.{IsReadyToStep};
ghost use Rattle.cc_queue.specs.Work.{IsOnList, Serves, scan_phase};

use crate::bodies;
use crate::tell::tell;
use cc_model::{Answer, CloseAnswer, SendAnswer};
use cc_runs::{ItemField, Job, Object, Parcel, Request, further_words, node_after};
use cc_steps::seats::PassSeat;
use cc_steps::steps;
use cc_steps::words::ChainWords;

/// Serves one request up to its mark: reads it, and decides why not if the queue is closed.
pub fn serve_request(words: &ChainWords<'_>, seat: &mut PassSeat, job: Job)
    requires here { IsOnList words.now.topic words.now.chain seat.old }
    requires sends { words.now.chain ≡ Chain.Send }
    requires at { seat.old.stand.phase ≡ Phase.Sending job Sending.ReadTag }
    ensures { Serves seat.old (Phase.MarkDone job) (seat.old.setting.config.capacity + 1) seat.new }
{
    let request = bodies::read_request(words, seat, job);
    let shut = steps::read_object(words, seat, Object::Shut);
    if shut != 0 {
        refuse_after_close(words, seat, job, request.tag);
        return;
    }
    serve_open(words, seat, job, request);
}

/// Serves a request of a queue that isn't closed: closes the list, or looks for a free node, or decides that `life` items
/// were accepted.
#[inline(always)]
fn serve_open(words: &ChainWords<'_>, seat: &mut PassSeat, job: Job, request: Request)
    requires here { IsOnList words.now.topic words.now.chain seat.old }
    requires at { seat.old.stand.phase ≡ Phase.Sending job (Sending.ReadCount request) }
    ensures { Serves seat.old (Phase.MarkDone job) (seat.old.setting.config.capacity + 1) seat.new }
{
    let count = steps::read_object(words, seat, Object::Count);
    if request.tag == 0 {
        link_mark(words, seat, job, count);
    } else if count == words.config().life {
        let answer = Answer::Send(SendAnswer::Spent);
        tell(words, seat, job, answer);
    } else {
        let parcel = Parcel {
            place: count,
            tag: request.tag,
            body: request.body,
        };
        scan(words, seat, job, parcel);
    }
}

/// Answers a send after the close by Closed, and a further close by Already with the number of items.
fn refuse_after_close(words: &ChainWords<'_>, seat: &mut PassSeat, job: Job, tag: u64)
    requires here { IsOnList words.now.topic words.now.chain seat.old }
    requires at { seat.old.stand.phase ≡ (if tag == 0 then Phase.Sending job Sending.ReadTotal else Phase.WriteAnswer job (Answer.Send SendAnswer.Closed)) }
    requires ready { IsReadyToStep seat.old }
    ensures { Serves seat.old (Phase.MarkDone job) 0 seat.new }
{
    let answer = if tag == 0 {
        let total = steps::read_object(words, seat, Object::Count);
        Answer::Close(CloseAnswer::Already { total })
    } else {
        Answer::Send(SendAnswer::Closed)
    };
    tell(words, seat, job, answer);
}

/// Closes: links the reserved node after the last one, and sets `shut`.
fn link_mark(words: &ChainWords<'_>, seat: &mut PassSeat, job: Job, total: u64)
    requires here { IsOnList words.now.topic words.now.chain seat.old }
    requires at { seat.old.stand.phase ≡ Phase.Sending job (Sending.ReadLastToClose total) }
    ensures { Serves seat.old (Phase.MarkDone job) 0 seat.new }
{
    let mark = words.config().capacity as u64 + 1;
    let last = steps::read_object(words, seat, Object::Last) - 1;
    steps::link_last(words, seat, last, mark + 1);
    steps::write_object(words, seat, Object::Last, mark + 1);
    steps::write_object(words, seat, Object::Shut, 1);
    let answer = Answer::Close(CloseAnswer::Shut { total });
    tell(words, seat, job, answer);
}

/// Appends the item in the first free node from the cursor on, or decides that the queue is full if none of the nodes is
/// free.
fn scan(words: &ChainWords<'_>, seat: &mut PassSeat, job: Job, parcel: Parcel)
    requires here { IsOnList words.now.topic words.now.chain seat.old }
    requires at { seat.old.stand.phase ≡ Phase.Sending job (Sending.ReadCursor parcel) }
    ensures { Serves seat.old (Phase.MarkDone job) (seat.old.setting.config.capacity + 1) seat.new }
{
    let cursor = steps::read_object(words, seat, Object::Cursor);
    if let Some(node) = find_free(words, seat, job, parcel, cursor) {
        prepare(words, seat, job, parcel, node);
        return;
    }
    let answer = Answer::Send(SendAnswer::Full);
    tell(words, seat, job, answer);
}

/// The first free node from the cursor on, if any of the nodes is free. Most sends find the node at the cursor free, so this look
/// comes first. The next looks go from there to the end of the row, and then from node 0 to the cursor: none of them computes a
/// remainder.
#[inline(always)]
fn find_free(
    words: &ChainWords<'_>,
    seat: &mut PassSeat,
    job: Job,
    parcel: Parcel,
    cursor: u64,
) -> Option<u64>
    requires here { IsOnList words.now.topic words.now.chain seat.old }
    requires cursor { cursor ≤ seat.old.setting.config.capacity }
    requires at { seat.old.stand.phase ≡ scan_phase seat.old.setting.config job parcel cursor 0 }
    requires ready { IsReadyToStep seat.old }
    ensures free { IfSome result (λ n. Serves seat.old (Phase.Sending job (Sending.ResetPassed parcel n)) (seat.old.setting.config.capacity + 1) seat.new) }
    ensures full { IfNone result (Serves seat.old (Phase.WriteAnswer job (Answer.Send SendAnswer.Full)) (seat.old.setting.config.capacity + 1) seat.new) }
    ensures ready { IsReadyToStep seat.new }
{
    let ahead = words.config().capacity as u64 - cursor;
    let here = look(words, seat, job, parcel, cursor, 1, 0);
    if here == 0 {
        return Some(cursor);
    }
    let used = look_by_four(words, seat, job, parcel, cursor + 1, ahead, 1);
    if used < ahead {
        return Some(cursor + 1 + used);
    }
    let behind = look_by_four(words, seat, job, parcel, 0, cursor, ahead + 1);
    if behind < cursor {
        return Some(behind);
    }
    None
}

/// The same as `look`, with four nodes in a round. The compiler writes these four looks one after another, since their number
/// is a constant. Fewer nodes than four need no round.
#[inline(always)]
fn look_by_four(
    words: &ChainWords<'_>,
    seat: &mut PassSeat,
    _job: Job,
    _parcel: Parcel,
    first: u64,
    count: u64,
    _looked: u64,
) -> u64
    requires here { IsOnList words.now.topic words.now.chain seat.old }
    requires within { first + count ≤ seat.old.setting.config.capacity + 1 }
    requires few { _looked + count ≤ seat.old.setting.config.capacity + 1 }
    requires fits { (first + count < 2 ^ 64) × (_looked + count < 2 ^ 64) }
    requires at { seat.old.stand.phase ≡ scan_phase seat.old.setting.config _job _parcel first _looked }
    requires ready { IsReadyToStep seat.old }
    ensures most { result ≤ count }
    ensures free { result < count → Serves seat.old (Phase.Sending _job (Sending.ResetPassed _parcel (first + result))) count seat.new }
    ensures none { result ≡ count → Serves seat.old (scan_phase seat.old.setting.config _job _parcel (first + count) (_looked + count)) count seat.new }
    ensures ready { IsReadyToStep seat.new }
{
    if count < 4 {
        return look(words, seat, _job, _parcel, first, count, _looked);
    }
    let rounds = count / 4;
    for round in 0..rounds {
        let done = 4 * round;
        let used = look(words, seat, _job, _parcel, first + done, 4, _looked + done);
        if used < 4 {
            return done + used;
        }
    }
    let done = 4 * rounds;
    let rest = count - done;
    let last = look(
        words,
        seat,
        _job,
        _parcel,
        first + done,
        rest,
        _looked + done,
    );
    done + last
}

/// Looks at `count` nodes from the first one on, up to one that is free. The result is how many nodes are in use before the
/// free one, and `count` if none of them is free. `_looked` other nodes were looked at before. `_looked`, `_job` and `_parcel` are
/// here for the clauses alone.
#[inline(always)]
fn look(
    words: &ChainWords<'_>,
    seat: &mut PassSeat,
    _job: Job,
    _parcel: Parcel,
    first: u64,
    count: u64,
    _looked: u64,
) -> u64
    requires here { IsOnList words.now.topic words.now.chain seat.old }
    requires within { first + count ≤ seat.old.setting.config.capacity + 1 }
    requires few { _looked + count ≤ seat.old.setting.config.capacity + 1 }
    requires fits { first + count < 2 ^ 64 }
    requires at { seat.old.stand.phase ≡ scan_phase seat.old.setting.config _job _parcel first _looked }
    requires ready { IsReadyToStep seat.old }
    ensures most { result ≤ count }
    ensures free { result < count → Serves seat.old (Phase.Sending _job (Sending.ResetPassed _parcel (first + result))) count seat.new }
    ensures none { result ≡ count → Serves seat.old (scan_phase seat.old.setting.config _job _parcel (first + count) (_looked + count)) count seat.new }
    ensures ready { IsReadyToStep seat.new }
{
    let groups = words.config().groups as u64;
    for passed in 0..count {
        if steps::read_passed(words, seat, first + passed) == groups {
            return passed;
        }
    }
    count
}

/// Resets a free node, writes the item into it, and appends it.
#[inline(always)]
fn prepare(words: &ChainWords<'_>, seat: &mut PassSeat, job: Job, parcel: Parcel, node: u64)
    requires here { IsOnList words.now.topic words.now.chain seat.old }
    requires at { seat.old.stand.phase ≡ Phase.Sending job (Sending.ResetPassed parcel node) }
    ensures { Serves seat.old (Phase.MarkDone job) 0 seat.new }
{
    steps::reset_list_node(words, seat, node, ItemField::Passed);
    steps::reset_list_node(words, seat, node, ItemField::Next);
    steps::write_item(words, seat, node, ItemField::Tag, parcel.tag);
    steps::write_item(words, seat, node, ItemField::Body(0), parcel.body.first);
    for done in 0..further_words(parcel.tag) {
        let index = done + 1;
        let word = parcel.body.word(index);
        steps::write_item(words, seat, node, ItemField::Body(index), word);
    }
    append(words, seat, job, parcel.place, node);
}

/// Links the prepared node after the last one: here the item is accepted.
#[inline(always)]
fn append(words: &ChainWords<'_>, seat: &mut PassSeat, job: Job, count: u64, node: u64)
    requires here { IsOnList words.now.topic words.now.chain seat.old }
    requires at { seat.old.stand.phase ≡ Phase.Sending job (Sending.ReadLast count node) }
    ensures { Serves seat.old (Phase.MarkDone job) 0 seat.new }
{
    let last = steps::read_object(words, seat, Object::Last) - 1;
    steps::link_last(words, seat, last, node + 1);
    steps::write_object(words, seat, Object::Last, node + 1);
    steps::write_object(words, seat, Object::Count, count + 1);
    let cursor = node_after(node, words.config().capacity as u64 + 1);
    steps::write_object(words, seat, Object::Cursor, cursor);
    let answer = Answer::Send(SendAnswer::Accepted { place: count });
    tell(words, seat, job, answer);
}
