//! A request or an item in a node of a chain, word by word: its tag, the first word of its body, and the further ones that
//! the tag counts.
ghost use Rattle.std.specs.Prelude.{◌≡◌};
ghost use Rattle.cc_queue.specs.Names.{Answer, TakeAnswer, Chain, Phase, Sending};
ghost use Rattle.cc_runs.specs.Codes as codes;
ghost use Rattle.cc_steps.specs.Walk.{IsOf, IsPendingIn, IsReadyToStep, IsToldAt};
ghost use Rattle.cc_queue.specs.Work.{IsOn, IsOnList, Serves};

use cc_model::Item;
use cc_runs::{BodyWords, Job, NodeField, Parcel, Request, further_words, item_of};
use cc_steps::seats::PassSeat;
use cc_steps::steps;
use cc_steps::words::ChainWords;

/// A sender writes its request into its current node, and links that to the node that it left to the chain, `put`.
#[inline(always)]
pub fn write_request(
    words: &ChainWords<'_>,
    seat: &mut PassSeat,
    node: u64,
    put: u64,
    request: Request,
)
    requires here { IsOf words.now.topic seat.old }
    requires chain { IsOn seat.old words.now.chain }
    requires at { seat.old.stand ≡ record { begun = seat.old.stand.begun; node = node; phase = Phase.WriteTag put request } }
    ensures written { Serves seat.old Phase.ReadState 0 seat.new }
    ensures pending { IsPendingIn seat.new }
{
    steps::write_request(words, seat, node, NodeField::Tag, request.tag);
    steps::write_request(words, seat, node, NodeField::Body(0), request.body.first);
    for done in 0..further_words(request.tag) {
        let index = done + 1;
        let word = request.body.word(index);
        steps::write_request(words, seat, node, NodeField::Body(index), word);
    }
    steps::link_next(words, seat, node, put + 1);
}

/// The senders' combiner reads the request that it serves.
#[inline(always)]
pub fn read_request(words: &ChainWords<'_>, seat: &mut PassSeat, job: Job) -> Request
    requires here { IsOnList words.now.topic words.now.chain seat.old }
    requires sends { words.now.chain ≡ Chain.Send }
    requires at { seat.old.stand.phase ≡ Phase.Sending job Sending.ReadTag }
    ensures read { Serves seat.old (Phase.Sending job (Sending.ReadShut result)) 0 seat.new }
    ensures ready { IsReadyToStep seat.new }
{
    let at = job.round.at;
    let tag = steps::read_request(words, seat, at, NodeField::Tag);
    let first = steps::read_request(words, seat, at, NodeField::Body(0));
    let mut body = BodyWords::one(first);
    for done in 0..further_words(tag) {
        let index = done + 1;
        let found = steps::read_request(words, seat, at, NodeField::Body(index));
        body = body.with_word(index, found);
    }
    Request { tag, body }
}

/// A combiner writes the item that it hands out into the node that it serves.
#[inline(always)]
pub fn write_answer(words: &ChainWords<'_>, seat: &mut PassSeat, job: Job, item: Parcel)
    requires here { IsOnList words.now.topic words.now.chain seat.old }
    requires at { seat.old.stand.phase ≡ Phase.WriteAnswerTag job (codes.item_in item) }
    ensures written { Serves seat.old (Phase.MarkDone job) 0 seat.new }
    ensures ready { IsReadyToStep seat.new }
{
    let at = job.round.at;
    steps::write_answer(words, seat, at, NodeField::Tag, item.tag_of_item());
    let first = item.word_of_item(0);
    steps::write_answer(words, seat, at, NodeField::Body(0), first);
    for done in 0..item.further_of_item() {
        let index = done + 1;
        let word = item.word_of_item(index);
        steps::write_answer(words, seat, at, NodeField::Body(index), word);
    }
}

/// A receiver reads the item that it was given, in its current node.
#[inline(always)]
pub fn read_answer(words: &ChainWords<'_>, seat: &mut PassSeat, node: u64, place: u64) -> Item
    requires here { IsOnList words.now.topic words.now.chain seat.old }
    requires at { seat.old.stand ≡ record { begun = seat.old.stand.begun; node = node; phase = Phase.ReadAnswerTag place } }
    ensures read { Serves seat.old Phase.Idle 0 seat.new }
    ensures told { IsToldAt seat.new (Phase.Finished (Answer.Take (TakeAnswer.Got result))) }
{
    let tag = steps::read_answer(words, seat, node, NodeField::Tag);
    let first = steps::read_answer(words, seat, node, NodeField::Body(0));
    let mut body = BodyWords::one(first);
    for done in 0..further_words(tag) {
        let index = done + 1;
        let found = steps::read_answer(words, seat, node, NodeField::Body(index));
        body = body.with_word(index, found);
    }
    item_of(place, tag, body)
}
