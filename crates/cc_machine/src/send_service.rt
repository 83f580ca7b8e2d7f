//! The rows of the senders' combiner that serves a send or a close on the list.
ghost use Rattle.cc_machine.specs.BoardSteps.{CanStep, Stepped};
ghost use Rattle.cc_machine.specs.Names.{Phase, Sending};

use crate::board::{Board, Stepper};
use cc_model::{Answer, CloseAnswer, SendAnswer};
use cc_runs::{
    BodyWords, Chain, ItemField, Job, Kind, NodeField, Object, Parcel, Phase, Request, Sending,
    Word, further_words, node_after,
};

impl Board {
    /// The step of the senders' combiner in the service of a send or a close.
    #[inline(always)]
    #[tactic(auto, using(cc_runs::proofs::Chains::Facts::noted_none))]
    pub fn send(&mut self, who: Stepper, job: Job, service: Sending) -> Kind
        requires { CanStep self.old who (Phase.Sending job service) }
        ensures { Stepped self.old who (Phase.Sending job service) result self.new }
    {
        let ordinary = self.setting.config.capacity as u64 + 1;
        match service {
            Sending::ReadTag => {
                let request = Request {
                    tag: self.load(Word::Node(Chain::Send, job.round.at, NodeField::Tag)),
                    body: BodyWords::none(),
                };
                let service = Sending::ReadBody { request, index: 0 };
                self.loads(who, Kind::ReadRequest, Phase::Sending { job, service })
            }
            Sending::ReadBody { request, index } => self.read_body(who, job, request, index),
            Sending::ReadShut { request } => self.read_shut(who, job, request),
            Sending::ReadTotal => {
                let total = self.load(Word::Object(Object::Count));
                let answer = Answer::Close(CloseAnswer::Already { total });
                self.decides(who, Kind::ReadObject, job, answer)
            }
            Sending::ReadCount { request } => self.read_count(who, job, request),
            Sending::ReadLastToClose { total } => {
                let service = Sending::LinkMark {
                    total,
                    last: self.load(Word::Object(Object::Last)) - 1,
                };
                self.loads(who, Kind::ReadObject, Phase::Sending { job, service })
            }
            Sending::LinkMark { total, last } => {
                self.decide(who.chain, Answer::Close(CloseAnswer::Shut { total }));
                let word = Word::Item(last, ItemField::Next);
                let service = Sending::WriteLastMark { total };
                self.stores(
                    who,
                    Kind::LinkLast,
                    word,
                    ordinary + 1,
                    Phase::Sending { job, service },
                )
            }
            Sending::WriteLastMark { total } => {
                let word = Word::Object(Object::Last);
                let service = Sending::WriteShut { total };
                self.stores(
                    who,
                    Kind::WriteObject,
                    word,
                    ordinary + 1,
                    Phase::Sending { job, service },
                )
            }
            Sending::WriteShut { total } => {
                let word = Word::Object(Object::Shut);
                let answer = Answer::Close(CloseAnswer::Shut { total });
                self.stores(
                    who,
                    Kind::WriteObject,
                    word,
                    1,
                    Phase::WriteAnswer { job, answer },
                )
            }
            Sending::ReadCursor { parcel } => {
                let service = Sending::ReadPassed {
                    parcel,
                    node: self.load(Word::Object(Object::Cursor)),
                    reads: 1,
                };
                self.loads(who, Kind::ReadObject, Phase::Sending { job, service })
            }
            Sending::ReadPassed {
                parcel,
                node,
                reads,
            } => self.read_passed(who, job, parcel, node, reads),
            Sending::ResetPassed { parcel, node } => {
                let word = Word::Item(node, ItemField::Passed);
                let service = Sending::ResetItemNext { parcel, node };
                self.stores(
                    who,
                    Kind::ResetListNode,
                    word,
                    0,
                    Phase::Sending { job, service },
                )
            }
            Sending::ResetItemNext { parcel, node } => {
                let word = Word::Item(node, ItemField::Next);
                let service = Sending::WriteItemTag { parcel, node };
                self.stores(
                    who,
                    Kind::ResetListNode,
                    word,
                    0,
                    Phase::Sending { job, service },
                )
            }
            Sending::WriteItemTag { parcel, node } => {
                let word = Word::Item(node, ItemField::Tag);
                let service = Sending::WriteItemBody {
                    parcel,
                    node,
                    index: 0,
                };
                self.stores(
                    who,
                    Kind::WriteItem,
                    word,
                    parcel.tag,
                    Phase::Sending { job, service },
                )
            }
            Sending::WriteItemBody {
                parcel,
                node,
                index,
            } => self.write_item_body(who, job, parcel, node, index),
            Sending::ReadLast { place, node } => {
                let service = Sending::LinkItem {
                    place,
                    node,
                    last: self.load(Word::Object(Object::Last)) - 1,
                };
                self.loads(who, Kind::ReadObject, Phase::Sending { job, service })
            }
            Sending::LinkItem { place, node, last } => {
                self.decide(who.chain, Answer::Send(SendAnswer::Accepted { place }));
                let word = Word::Item(last, ItemField::Next);
                let service = Sending::WriteLast { place, node };
                self.stores(
                    who,
                    Kind::LinkLast,
                    word,
                    node + 1,
                    Phase::Sending { job, service },
                )
            }
            Sending::WriteLast { place, node } => {
                let word = Word::Object(Object::Last);
                let service = Sending::WriteCount { place, node };
                self.stores(
                    who,
                    Kind::WriteObject,
                    word,
                    node + 1,
                    Phase::Sending { job, service },
                )
            }
            Sending::WriteCount { place, node } => {
                let word = Word::Object(Object::Count);
                let service = Sending::WriteCursor { place, node };
                self.stores(
                    who,
                    Kind::WriteObject,
                    word,
                    place + 1,
                    Phase::Sending { job, service },
                )
            }
            Sending::WriteCursor { place, node } => {
                let word = Word::Object(Object::Cursor);
                let answer = Answer::Send(SendAnswer::Accepted { place });
                self.stores(
                    who,
                    Kind::WriteObject,
                    word,
                    node_after(node, ordinary),
                    Phase::WriteAnswer { job, answer },
                )
            }
        }
    }

    /// A word of the request's body is read, and then its next word, or the flag.
    #[inline(always)]
    fn read_body(&mut self, who: Stepper, job: Job, request: Request, index: u32) -> Kind
        requires { CanStep self.old who (Phase.Sending job (Sending.ReadBody request index)) }
        ensures { Stepped self.old who (Phase.Sending job (Sending.ReadBody request index)) result self.new }
    {
        let found = self.load(Word::Node(Chain::Send, job.round.at, NodeField::Body(index)));
        let request = Request {
            body: request.body.with_word(index, found),
            ..request
        };
        if index < further_words(request.tag) {
            let service = Sending::ReadBody {
                request,
                index: index + 1,
            };
            return self.loads(who, Kind::ReadRequest, Phase::Sending { job, service });
        }
        let service = Sending::ReadShut { request };
        self.loads(who, Kind::ReadRequest, Phase::Sending { job, service })
    }

    /// The flag is read: if the list is shut, a send is decided, and a close reads the total.
    #[inline(always)]
    fn read_shut(&mut self, who: Stepper, job: Job, request: Request) -> Kind
        requires { CanStep self.old who (Phase.Sending job (Sending.ReadShut request)) }
        ensures { Stepped self.old who (Phase.Sending job (Sending.ReadShut request)) result self.new }
    {
        if self.load(Word::Object(Object::Shut)) == 0 {
            let service = Sending::ReadCount { request };
            return self.loads(who, Kind::ReadObject, Phase::Sending { job, service });
        }
        if request.tag == 0 {
            let service = Sending::ReadTotal;
            return self.loads(who, Kind::ReadObject, Phase::Sending { job, service });
        }
        let answer = Answer::Send(SendAnswer::Closed);
        self.decides(who, Kind::ReadObject, job, answer)
    }

    /// The count is read: the total of a close, or the place of a send, which the life's end decides.
    #[inline(always)]
    fn read_count(&mut self, who: Stepper, job: Job, request: Request) -> Kind
        requires { CanStep self.old who (Phase.Sending job (Sending.ReadCount request)) }
        ensures { Stepped self.old who (Phase.Sending job (Sending.ReadCount request)) result self.new }
    {
        let count = self.load(Word::Object(Object::Count));
        if request.tag == 0 {
            let service = Sending::ReadLastToClose { total: count };
            return self.loads(who, Kind::ReadObject, Phase::Sending { job, service });
        }
        if count == self.setting.config.life {
            let answer = Answer::Send(SendAnswer::Spent);
            return self.decides(who, Kind::ReadObject, job, answer);
        }
        let parcel = Parcel {
            place: count,
            tag: request.tag,
            body: request.body,
        };
        let service = Sending::ReadCursor { parcel };
        self.loads(who, Kind::ReadObject, Phase::Sending { job, service })
    }

    /// A node that each group has passed is taken, or else the next one is looked at, until all were: then it is full.
    #[inline(always)]
    fn read_passed(&mut self, who: Stepper, job: Job, parcel: Parcel, node: u64, reads: u32) -> Kind
        requires { CanStep self.old who (Phase.Sending job (Sending.ReadPassed parcel node reads)) }
        ensures { Stepped self.old who (Phase.Sending job (Sending.ReadPassed parcel node reads)) result self.new }
    {
        let ordinary = self.setting.config.capacity as u64 + 1;
        if self.load(Word::Item(node, ItemField::Passed)) == self.setting.config.groups as u64 {
            let service = Sending::ResetPassed { parcel, node };
            return self.loads(who, Kind::ReadPassed, Phase::Sending { job, service });
        }
        if reads as u64 == ordinary {
            let answer = Answer::Send(SendAnswer::Full);
            return self.decides(who, Kind::ReadPassed, job, answer);
        }
        let service = Sending::ReadPassed {
            parcel,
            node: node_after(node, ordinary),
            reads: reads + 1,
        };
        self.loads(who, Kind::ReadPassed, Phase::Sending { job, service })
    }

    /// A word of the item's body is written, and its words are written one by one.
    #[inline(always)]
    fn write_item_body(
        &mut self,
        who: Stepper,
        job: Job,
        parcel: Parcel,
        node: u64,
        index: u32,
    ) -> Kind
        requires { CanStep self.old who (Phase.Sending job (Sending.WriteItemBody parcel node index)) }
        ensures { Stepped self.old who (Phase.Sending job (Sending.WriteItemBody parcel node index)) result self.new }
    {
        let word = Word::Item(node, ItemField::Body(index));
        let value = parcel.body.word(index);
        if index < further_words(parcel.tag) {
            let service = Sending::WriteItemBody {
                parcel,
                node,
                index: index + 1,
            };
            return self.stores(
                who,
                Kind::WriteItem,
                word,
                value,
                Phase::Sending { job, service },
            );
        }
        let service = Sending::ReadLast {
            place: parcel.place,
            node,
        };
        self.stores(
            who,
            Kind::WriteItem,
            word,
            value,
            Phase::Sending { job, service },
        )
    }
}
