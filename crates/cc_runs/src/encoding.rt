//! Requests, items and answers as words, and back.
ghost use Rattle.std.specs.Prelude.{◌≡◌, ◌<◌, ◌≤◌, ◌^◌, slice_index_or};
ghost use Rattle.cc_model.specs.Body.{further_of, IsBody};
ghost use Rattle.cc_runs.specs.Codes as codes;

use crate::phase::{BodyWords, Parcel, Request};
use crate::setting::Served;
use cc_model::{
    Answer, Body, Call, CloseAnswer, Entry, Item, Pass, SendAnswer, TakeAnswer, pack_words,
    unpack_words,
};

/// An answer word of the list is this times the code of the answer, and its number.
pub const CODE: u64 = 1 << 56;

/// The number of words of its body that a tag counts after the first: three at most.
#[inline(always)]
pub fn further_words(tag: u64) -> u32
    ensures words { result ≡ codes.further_words tag }
    ensures few { result < 4 }
{
    (tag / (1 << 48) % 4) as u32
}

impl BodyWords {
    /// A word of a body, by its number from 0 on; there are four.
    #[inline(always)]
    pub fn word(self, index: u32) -> u64
        ensures { result ≡ codes.word self index }
    {
        match index {
            0 => self.first,
            1 => self.second,
            2 => self.third,
            3 => self.fourth,
            _ => 0,
        }
    }

    /// The body with this word at that number.
    #[inline(always)]
    pub fn with_word(self, index: u32, value: u64) -> BodyWords
        ensures { result ≡ codes.with_word self index value }
    {
        match index {
            0 => BodyWords {
                first: value,
                ..self
            },
            1 => BodyWords {
                second: value,
                ..self
            },
            2 => BodyWords {
                third: value,
                ..self
            },
            3 => BodyWords {
                fourth: value,
                ..self
            },
            _ => self,
        }
    }

    /// One word, and 0 after it.
    #[inline(always)]
    pub fn one(value: u64) -> BodyWords
        ensures { result ≡ codes.with_word codes.no_words 0 value }
    {
        BodyWords {
            first: value,
            ..BodyWords::none()
        }
    }

    /// Four words that are 0.
    #[inline(always)]
    pub fn none() -> BodyWords
        ensures { result ≡ codes.no_words }
    {
        BodyWords {
            first: 0,
            second: 0,
            third: 0,
            fourth: 0,
        }
    }
}

/// The number of words of a body after the first.
#[inline(always)]
fn further_of(body: Body) -> u32
    ensures words { result ≡ further_of body }
    ensures body { IsBody body }
    ensures few { result < 4 }
{
    body.words().len() as u32 - 1
}

/// The words of a body, and 0 after them.
#[inline(always)]
pub fn words_in(body: Body) -> BodyWords
    ensures { result ≡ codes.words_in body }
{
    let words = body.words();
    BodyWords {
        first: word_at(words, 0),
        second: word_at(words, 1),
        third: word_at(words, 2),
        fourth: word_at(words, 3),
    }
}

#[inline(always)]
fn word_at(words: &[u64], index: usize) -> u64
    ensures { result ≡ slice_index_or words.now index 0 }
{
    if index < words.len() { words[index] } else { 0 }
}

/// The body of the first of these words, and of this number of further ones.
#[inline(always)]
pub fn body_in(further: u32, words: BodyWords) -> Body
    ensures { result ≡ codes.body_in further words }
{
    match further {
        0 => Body::one(words.first),
        1 => Body::two(words.first, words.second),
        2 => Body::three(words.first, words.second, words.third),
        _ => Body::four(words.first, words.second, words.third, words.fourth),
    }
}

/// The tag of a send of this body.
#[inline(always)]
pub fn packed(sender: u32, number: u32, body: Body) -> u64
    ensures tag { result ≡ codes.packed sender number body }
    ensures body { IsBody body }
{
    pack_words(sender % (1 << 16), number, further_of(body) + 1)
}

/// The item of a list node's words.
#[inline(always)]
pub fn item_of(place: u64, tag: u64, body: BodyWords) -> Item
    ensures { result ≡ codes.item_of place tag body }
{
    let (sender, number, _) = unpack_words(tag);
    Item {
        place,
        sender,
        number,
        body: body_in(further_words(tag), body),
    }
}

/// The item of the words that were read of it.
impl Parcel {
    /// The tag of the item.
    #[inline(always)]
    #[tactic(auto, using(crate::proofs::Bodies::tag_cut))]
    pub fn tag_of_item(self) -> u64
        ensures { result ≡ codes.tag_of (codes.item_in self) }
    {
        self.tag % (1 << 50)
    }

    /// The number of words of its body after the first.
    #[inline(always)]
    #[tactic(auto, using(crate::proofs::Bodies::further_same))]
    pub fn further_of_item(self) -> u32
        ensures words { result ≡ codes.further_words (codes.tag_of (codes.item_in self)) }
        ensures few { result < 4 }
    {
        further_words(self.tag)
    }

    /// A word of its body, by its number from 0 on.
    #[inline(always)]
    #[tactic(auto, using(crate::proofs::Bodies::word_same))]
    pub fn word_of_item(self, index: u32) -> u64
        requires { index ≤ codes.further_words (codes.tag_of (codes.item_in self)) }
        ensures { result ≡ codes.word (codes.body_words (codes.item_in self)) index }
    {
        self.body.word(index)
    }
}

/// The tag of an item: its sender and the number of its send.
pub fn tag_of(item: Item) -> u64
    ensures { result ≡ codes.tag_of item }
{
    packed(item.sender, item.number, item.body)
}

/// The words of an item's body.
pub fn body_words(item: Item) -> BodyWords
    ensures { result ≡ codes.body_words item }
{
    words_in(item.body)
}

/// The request words of a sender's call.
pub fn request_in(entry: Entry) -> Request
    ensures { result ≡ codes.request_in entry }
{
    match (entry.pass, entry.call) {
        (Pass::Sender(sender), Call::Send(body)) => Request {
            tag: packed(sender, entry.number, body),
            body: words_in(body),
        },
        _ => Request {
            tag: 0,
            body: BodyWords::none(),
        },
    }
}

fn list_word(answer: Answer) -> u64
    requires { codes.list_word answer < 2 ^ 64 }
    ensures { result ≡ codes.list_word answer }
{
    match answer {
        Answer::Send(SendAnswer::Accepted { place }) => CODE + place,
        Answer::Send(SendAnswer::Full) => 2 * CODE,
        Answer::Send(SendAnswer::Closed) => 3 * CODE,
        Answer::Send(SendAnswer::Spent) => 4 * CODE,
        Answer::Close(CloseAnswer::Shut { total }) => 5 * CODE + total,
        Answer::Close(CloseAnswer::Already { total }) => 6 * CODE + total,
        Answer::Take(TakeAnswer::Got(item)) => CODE + item.place,
        Answer::Take(TakeAnswer::Empty) => 2 * CODE,
        Answer::Take(TakeAnswer::Ended { total }) => 3 * CODE + total,
    }
}

/// The number that the counter answers.
pub fn count_word(answer: Answer) -> u64
    ensures { result ≡ codes.count_word answer }
{
    match answer {
        Answer::Send(SendAnswer::Accepted { place }) => place,
        _ => 0,
    }
}

/// The answer word that a combiner writes.
pub fn ret_of(served: Served, answer: Answer) -> u64
    requires { codes.ret_of served answer < 2 ^ 64 }
    ensures { result ≡ codes.ret_of served answer }
{
    match served {
        Served::Counter => count_word(answer),
        Served::List => list_word(answer),
    }
}

/// The answer that a sender of the list reads in its answer word.
pub fn list_reads(ret: u64) -> Answer
    ensures { result ≡ codes.list_reads ret }
{
    let value = ret % CODE;
    match ret / CODE {
        1 => Answer::Send(SendAnswer::Accepted { place: value }),
        2 => Answer::Send(SendAnswer::Full),
        3 => Answer::Send(SendAnswer::Closed),
        4 => Answer::Send(SendAnswer::Spent),
        5 => Answer::Close(CloseAnswer::Shut { total: value }),
        _ => Answer::Close(CloseAnswer::Already { total: value }),
    }
}

/// The answer that a sender reads in its answer word, whatever is served.
pub fn sender_reads(served: Served, ret: u64) -> Answer
    ensures { result ≡ codes.sender_reads served ret }
{
    match served {
        Served::Counter => Answer::Send(SendAnswer::Accepted { place: ret }),
        Served::List => list_reads(ret),
    }
}
