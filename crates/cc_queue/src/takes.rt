//! The service of a take: CC-Queue's dequeue, by the combiner of a group's chain.
ghost use Rattle.std.specs.Prelude.{◌≡◌, ◌+◌, ◌<◌, ◌^◌, Some, None};
ghost use Rattle.cc_queue.specs.Names.{Chain, Phase, Taking};
ghost use Rattle.cc_runs.specs.Codes as codes;
ghost use Rattle.cc_steps.specs.Walk.{IsReadyToStep};
ghost use Rattle.cc_queue.specs.Work.{IsOnList, Serves};

use crate::bodies;
use crate::tell::tell;
use cc_model::{Answer, TakeAnswer};
use cc_runs::{BodyWords, CODE, ItemField, Job, NodeField, Object, Parcel, further_words};
use cc_steps::seats::PassSeat;
use cc_steps::steps;
use cc_steps::words::ChainWords;

/// The head of a group, from 0, as a take finds it: the dummy, how many items the group was handed, and the node after the
/// dummy.
#[derive(Clone, Copy)]
struct Head {
    group: u32,
    dummy: u64,
    taken: u64,
    node: u64,
}

/// Serves one take up to its mark: reads the dummy's next and the item there, or decides that there is none.
pub fn serve_take(words: &ChainWords<'_>, seat: &mut PassSeat, group: u32, job: Job)
    requires here { IsOnList words.now.topic words.now.chain seat.old }
    requires takes { words.now.chain ≡ Chain.Take group }
    requires at { seat.old.stand.phase ≡ Phase.Taking job Taking.ReadHead }
    ensures { Serves seat.old (Phase.MarkDone job) 0 seat.new }
{
    let dummy = steps::read_object(words, seat, Object::Head(group)) - 1;
    let taken = steps::read_object(words, seat, Object::Taken(group));
    let next = steps::read_dummy_next(words, seat, dummy);
    if next == 0 {
        tell(words, seat, job, Answer::Take(TakeAnswer::Empty));
        return;
    }
    let head = Head {
        group,
        dummy,
        taken,
        node: next - 1,
    };
    take_item(words, seat, job, head);
}

/// Reads the tag of the node after the dummy, and takes the item there, or decides the end if that node is the close mark.
fn take_item(words: &ChainWords<'_>, seat: &mut PassSeat, job: Job, head: Head)
    requires here { IsOnList words.now.topic words.now.chain seat.old }
    requires takes { words.now.chain ≡ Chain.Take head.group }
    requires at { seat.old.stand.phase ≡ Phase.Taking job (Taking.ReadItemTag head.dummy head.taken head.node) }
    requires ready { IsReadyToStep seat.old }
    ensures { Serves seat.old (Phase.MarkDone job) 0 seat.new }
{
    let tag = steps::read_item(words, seat, head.node, ItemField::Tag);
    if tag == 0 {
        let answer = Answer::Take(TakeAnswer::Ended { total: head.taken });
        tell(words, seat, job, answer);
        return;
    }
    take_body(words, seat, job, head, tag);
}

/// Reads the body of the item with this tag, and hands the item out.
#[inline(always)]
fn take_body(words: &ChainWords<'_>, seat: &mut PassSeat, job: Job, head: Head, tag: u64)
    requires here { IsOnList words.now.topic words.now.chain seat.old }
    requires takes { words.now.chain ≡ Chain.Take head.group }
    requires at { seat.old.stand.phase ≡ Phase.Taking job (Taking.ReadItemBody head.dummy head.node (codes.parcel head.taken tag codes.no_words) 0) }
    ensures { Serves seat.old (Phase.MarkDone job) 0 seat.new }
{
    let first = steps::read_item(words, seat, head.node, ItemField::Body(0));
    let mut body = BodyWords::one(first);
    for done in 0..further_words(tag) {
        let index = done + 1;
        let found = steps::read_item(words, seat, head.node, ItemField::Body(index));
        body = body.with_word(index, found);
    }
    let parcel = Parcel {
        place: head.taken,
        tag,
        body,
    };
    hand_out(words, seat, job, head, parcel);
}

/// Makes the item's node the new dummy, frees the old one, and decides the item.
fn hand_out(words: &ChainWords<'_>, seat: &mut PassSeat, job: Job, head: Head, parcel: Parcel)
    requires here { IsOnList words.now.topic words.now.chain seat.old }
    requires takes { words.now.chain ≡ Chain.Take head.group }
    requires at { seat.old.stand.phase ≡ Phase.Taking job (Taking.WriteHead head.dummy head.node parcel) }
    requires ready { IsReadyToStep seat.old }
    ensures { Serves seat.old (Phase.MarkDone job) 0 seat.new }
{
    steps::write_object(words, seat, Object::Head(head.group), head.node + 1);
    steps::write_object(words, seat, Object::Taken(head.group), parcel.place + 1);
    steps::add_passed(words, seat, head.dummy);
    let ret = CODE + parcel.place;
    steps::write_answer(words, seat, job.round.at, NodeField::Ret, ret);
    bodies::write_answer(words, seat, job, parcel);
}
