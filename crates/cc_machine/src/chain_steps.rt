//! The rows of a call on its combining chain, from the reset of its node to the read of its answer.
ghost use Rattle.std.specs.Prelude.{◌≡◌, ◌+◌, ◌<◌, ◌^◌, IfSome, IfNone};
ghost use Rattle.cc_machine.specs.BoardSteps.{CanStep, Stepped};
ghost use Rattle.cc_machine.specs.Names.{Phase, Answer, TakeAnswer};
ghost use Rattle.cc_runs.specs.Lines as lines;
ghost use Rattle.cc_runs.specs.Lines.{event_at};
ghost use Rattle.cc_runs.specs.Codes as codes;
ghost use Rattle.cc_runs.specs.Codes.{behind};

use crate::board::{Board, Stepper};
use cc_model::{Answer, Entry, Item, TakeAnswer};
use cc_runs::{
    BodyWords, CODE, Chain, Counting, Event, Job, Kind, NodeField, Parcel, Phase, Request, Round,
    Sending, Served, Taking, Word, body_words, further_words, item_of, request_in, ret_of,
    sender_reads, tag_of,
};

/// A sender writes its request, a receiver has none.
fn after_exchange(chain: Chain, own: u64, call: Entry) -> Phase
    ensures { result ≡ lines.after_exchange chain own call }
{
    match chain {
        Chain::Send => Phase::WriteTag {
            put: own,
            request: request_in(call),
        },
        Chain::Take(_) => Phase::Link { put: own },
    }
}

/// State 0: the caller combines, from its own node on; 1: it waits; 2: its answer is there.
fn after_state(own: u64, state: u64) -> Phase
    ensures { result ≡ lines.after_state own state }
{
    match state {
        0 => Phase::ReadNext {
            round: Round { at: own, served: 0 },
        },
        1 => Phase::ReadState,
        _ => Phase::ReadAnswer,
    }
}

/// The first phase of the service of a request.
fn serves(served: Served, chain: Chain, job: Job) -> Phase
    ensures { result ≡ lines.serves served chain job }
{
    match (served, chain) {
        (Served::Counter, _) => Phase::Counting {
            job,
            service: Counting::ReadTag,
        },
        (Served::List, Chain::Send) => Phase::Sending {
            job,
            service: Sending::ReadTag,
        },
        (Served::List, Chain::Take(_)) => Phase::Taking {
            job,
            service: Taking::ReadHead,
        },
    }
}

/// If no node is linked yet, the combiner stops here.
fn after_next(served: Served, chain: Chain, round: Round, next: u64) -> Phase
    ensures { result ≡ lines.after_next served chain round next }
{
    if next == 0 {
        Phase::HandOver { at: round.at }
    } else {
        let job = Job {
            round,
            next: next - 1,
        };
        serves(served, chain, job)
    }
}

/// A take that is handed an item gets its tag and its body too.
fn after_answer(job: Job, answer: Answer) -> Phase
    ensures { result ≡ lines.after_answer job answer }
{
    match answer {
        Answer::Take(TakeAnswer::Got(item)) => Phase::WriteAnswerTag { job, item },
        _ => Phase::MarkDone { job },
    }
}

/// A combiner stops at the bound.
fn after_done(bound: u32, job: Job) -> Phase
    requires { job.round.served + 1 < 2 ^ 32 }
    ensures { result ≡ lines.after_done bound job }
{
    let served = job.round.served + 1;
    if served == bound {
        Phase::HandOver { at: job.next }
    } else {
        Phase::ReadNext {
            round: Round {
                at: job.next,
                served,
            },
        }
    }
}

/// The words of an answer are read one by one.
fn after_body(parcel: Parcel, index: u32) -> Phase
    ensures { result ≡ behind (codes.further_words parcel.tag) index (Phase.ReadAnswerBody parcel (index + 1)) (Phase.Finished (Answer.Take (TakeAnswer.Got (codes.item_in parcel)))) }
{
    if index < further_words(parcel.tag) {
        Phase::ReadAnswerBody {
            parcel,
            index: index + 1,
        }
    } else {
        let item = item_of(parcel.place, parcel.tag, parcel.body);
        Phase::Finished {
            answer: Answer::Take(TakeAnswer::Got(item)),
        }
    }
}

/// A take that got an item reads its tag and its body too.
fn after_ret(served: Served, chain: Chain, ret: u64) -> Phase
    ensures { result ≡ lines.after_ret served chain ret }
{
    let answer = match (chain, ret / CODE) {
        (Chain::Send, _) => sender_reads(served, ret),
        (Chain::Take(_), 1) => return Phase::ReadAnswerTag { place: ret % CODE },
        (Chain::Take(_), 2) => Answer::Take(TakeAnswer::Empty),
        (Chain::Take(_), _) => Answer::Take(TakeAnswer::Ended { total: ret % CODE }),
    };
    Phase::Finished { answer }
}

impl Board {
    /// The step of a pass in this phase, if it has one.
    #[inline(always)]
    pub fn step(&mut self, who: Stepper, phase: Phase) -> Option<Kind>
        requires { CanStep self.old who phase }
        ensures some { IfSome result (λ kind. Stepped self.old who phase kind self.new) }
        ensures none { IfNone result (self.new ≡ self.old) }
        ensures idle { IfNone result (event_at phase ≡ Event.Idle) }
    {
        let (chain, own, served) = (who.chain, who.node, self.setting.served);
        let kind = match phase {
            Phase::Idle | Phase::Finished { .. } => return None,
            Phase::ResetNext { call } => {
                let word = Word::Node(chain, own, NodeField::Next);
                self.stores(who, Kind::ResetNext, word, 0, Phase::ResetState { call })
            }
            Phase::ResetState { call } => {
                let word = Word::Node(chain, own, NodeField::State);
                self.stores(who, Kind::ResetState, word, 1, Phase::Exchange { call })
            }
            Phase::Exchange { call } => self.exchange(who, call),
            Phase::WriteTag { put, request } => {
                let word = Word::Node(chain, own, NodeField::Tag);
                let goes = Phase::WriteBody {
                    put,
                    request,
                    index: 0,
                };
                self.stores(who, Kind::WriteRequest, word, request.tag, goes)
            }
            Phase::WriteBody {
                put,
                request,
                index,
            } => self.write_body(who, put, request, index),
            Phase::Link { put } => self.link(who, put),
            Phase::ReadState => {
                let state = self.load(Word::Node(chain, own, NodeField::State));
                self.loads(who, Kind::ReadState, after_state(own, state))
            }
            Phase::ReadNext { round } => {
                let next = self.load(Word::Node(chain, round.at, NodeField::Next));
                self.loads(who, Kind::ReadNext, after_next(served, chain, round, next))
            }
            Phase::Counting { job, service } => self.count(who, job, service),
            Phase::Sending { job, service } => self.send(who, job, service),
            Phase::Taking { job, service } => self.take(who, job, service),
            Phase::WriteAnswer { job, answer } => {
                let word = Word::Node(chain, job.round.at, NodeField::Ret);
                self.stores(
                    who,
                    Kind::WriteAnswer,
                    word,
                    ret_of(served, answer),
                    after_answer(job, answer),
                )
            }
            Phase::WriteAnswerTag { job, item } => {
                let word = Word::Node(chain, job.round.at, NodeField::Tag);
                let goes = Phase::WriteAnswerBody {
                    job,
                    item,
                    index: 0,
                };
                self.stores(who, Kind::WriteAnswer, word, tag_of(item), goes)
            }
            Phase::WriteAnswerBody { job, item, index } => self.write_answer_body(
                who, job, item, index,
            ),
            Phase::MarkDone { job } => {
                let word = Word::Node(chain, job.round.at, NodeField::State);
                self.stores(
                    who,
                    Kind::MarkDone,
                    word,
                    2,
                    after_done(self.setting.config.bound, job),
                )
            }
            Phase::HandOver { at } => {
                let word = Word::Node(chain, at, NodeField::State);
                self.stores(who, Kind::HandOver, word, 0, Phase::ReadAnswer)
            }
            Phase::ReadAnswer => {
                let ret = self.load(Word::Node(chain, own, NodeField::Ret));
                self.loads(who, Kind::ReadAnswer, after_ret(served, chain, ret))
            }
            Phase::ReadAnswerTag { place } => {
                let parcel = Parcel {
                    place,
                    tag: self.load(Word::Node(chain, own, NodeField::Tag)),
                    body: BodyWords::none(),
                };
                self.loads(
                    who,
                    Kind::ReadAnswer,
                    Phase::ReadAnswerBody { parcel, index: 0 },
                )
            }
            Phase::ReadAnswerBody { parcel, index } => {
                let found = self.load(Word::Node(chain, own, NodeField::Body(index)));
                let parcel = Parcel {
                    body: parcel.body.with_word(index, found),
                    ..parcel
                };
                self.loads(who, Kind::ReadAnswer, after_body(parcel, index))
            }
        };
        Some(kind)
    }

    /// The exchange of the tail, which puts the call into the history.
    #[inline(always)]
    fn exchange(&mut self, who: Stepper, call: Entry) -> Kind
        requires { CanStep self.old who (Phase.Exchange call) }
        ensures { Stepped self.old who (Phase.Exchange call) result self.new }
    {
        let (chain, own) = (who.chain, who.node);
        let word = Word::Tail(chain);
        self.enter(chain, call);
        let after = Stepper {
            node: self.load(word) - 1,
            ..who
        };
        self.stores(
            after,
            Kind::Exchange,
            word,
            own + 1,
            after_exchange(chain, own, call),
        )
    }

    /// A word of the request's body is written, and its words are written one by one.
    #[inline(always)]
    fn write_body(&mut self, who: Stepper, put: u64, request: Request, index: u32) -> Kind
        requires { CanStep self.old who (Phase.WriteBody put request index) }
        ensures { Stepped self.old who (Phase.WriteBody put request index) result self.new }
    {
        let word = Word::Node(who.chain, who.node, NodeField::Body(index));
        let goes = if index < further_words(request.tag) {
            Phase::WriteBody {
                put,
                request,
                index: index + 1,
            }
        } else {
            Phase::Link { put }
        };
        self.stores(
            who,
            Kind::WriteRequest,
            word,
            request.body.word(index),
            goes,
        )
    }

    /// The node that the exchange found gets the one that was put as its next.
    #[inline(always)]
    fn link(&mut self, who: Stepper, put: u64) -> Kind
        requires { CanStep self.old who (Phase.Link put) }
        ensures { Stepped self.old who (Phase.Link put) result self.new }
    {
        let (chain, own) = (who.chain, who.node);
        let word = Word::Node(chain, own, NodeField::Next);
        self.stores(who, Kind::Link, word, put + 1, Phase::ReadState)
    }

    /// A word of the item's body is written into the caller's node, and its words are written one by one.
    #[inline(always)]
    fn write_answer_body(&mut self, who: Stepper, job: Job, item: Item, index: u32) -> Kind
        requires { CanStep self.old who (Phase.WriteAnswerBody job item index) }
        ensures { Stepped self.old who (Phase.WriteAnswerBody job item index) result self.new }
    {
        let word = Word::Node(who.chain, job.round.at, NodeField::Body(index));
        let goes = if index < further_words(tag_of(item)) {
            Phase::WriteAnswerBody {
                job,
                item,
                index: index + 1,
            }
        } else {
            Phase::MarkDone { job }
        };
        self.stores(
            who,
            Kind::WriteAnswer,
            word,
            body_words(item).word(index),
            goes,
        )
    }
}
