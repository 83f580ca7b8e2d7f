//! The rows of a group's combiner that serves a take on the list.
ghost use Rattle.cc_machine.specs.BoardSteps.{CanStep, Stepped};

use crate::board::{Board, Stepper};
use cc_model::{Answer, TakeAnswer};
use cc_runs::{
    BodyWords, ItemField, Job, Kind, Object, Parcel, Phase, Taking, Word, further_words, item_of,
};

impl Board {
    /// The step of a group's combiner in the service of a take.
    #[tactic(auto, using(cc_runs::proofs::Chains::Facts::noted_none))]
    #[inline(always)]
    pub fn take(&mut self, who: Stepper, job: Job, service: Taking) -> Kind
        requires { CanStep self.old who (Phase.Taking job service) }
        ensures { Stepped self.old who (Phase.Taking job service) result self.new }
    {
        let head = Word::Object(Object::Head(who.group()));
        let count = Word::Object(Object::Taken(who.group()));
        match service {
            Taking::ReadHead => {
                let service = Taking::ReadTaken {
                    dummy: self.load(head) - 1,
                };
                self.loads(who, Kind::ReadObject, Phase::Taking { job, service })
            }
            Taking::ReadTaken { dummy } => {
                let service = Taking::ReadDummyNext {
                    dummy,
                    taken: self.load(count),
                };
                self.loads(who, Kind::ReadObject, Phase::Taking { job, service })
            }
            Taking::ReadDummyNext { dummy, taken } => {
                let next = self.load(Word::Item(dummy, ItemField::Next));
                if next == 0 {
                    let answer = Answer::Take(TakeAnswer::Empty);
                    return self.decides(who, Kind::ReadDummyNext, job, answer);
                }
                let service = Taking::ReadItemTag {
                    dummy,
                    taken,
                    node: next - 1,
                };
                self.loads(who, Kind::ReadDummyNext, Phase::Taking { job, service })
            }
            Taking::ReadItemTag { dummy, taken, node } => {
                let tag = self.load(Word::Item(node, ItemField::Tag));
                if tag == 0 {
                    let answer = Answer::Take(TakeAnswer::Ended { total: taken });
                    return self.decides(who, Kind::ReadItem, job, answer);
                }
                let parcel = Parcel {
                    place: taken,
                    tag,
                    body: BodyWords::none(),
                };
                let service = Taking::ReadItemBody {
                    dummy,
                    node,
                    parcel,
                    index: 0,
                };
                self.loads(who, Kind::ReadItem, Phase::Taking { job, service })
            }
            Taking::ReadItemBody {
                dummy,
                node,
                parcel,
                index,
            } => {
                let found = self.load(Word::Item(node, ItemField::Body(index)));
                let parcel = Parcel {
                    body: parcel.body.with_word(index, found),
                    ..parcel
                };
                if index < further_words(parcel.tag) {
                    let service = Taking::ReadItemBody {
                        dummy,
                        node,
                        parcel,
                        index: index + 1,
                    };
                    return self.loads(who, Kind::ReadItem, Phase::Taking { job, service });
                }
                let service = Taking::WriteHead {
                    dummy,
                    node,
                    parcel,
                };
                self.loads(who, Kind::ReadItem, Phase::Taking { job, service })
            }
            Taking::WriteHead {
                dummy,
                node,
                parcel,
            } => {
                let service = Taking::WriteTaken { dummy, parcel };
                self.stores(
                    who,
                    Kind::WriteObject,
                    head,
                    node + 1,
                    Phase::Taking { job, service },
                )
            }
            Taking::WriteTaken { dummy, parcel } => {
                let service = Taking::AddPassed { dummy, parcel };
                self.stores(
                    who,
                    Kind::WriteObject,
                    count,
                    parcel.place + 1,
                    Phase::Taking { job, service },
                )
            }
            Taking::AddPassed { dummy, parcel } => {
                let word = Word::Item(dummy, ItemField::Passed);
                let item = item_of(parcel.place, parcel.tag, parcel.body);
                let passed = self.load(word) + 1;
                let kind = self.decides(
                    who,
                    Kind::AddPassed,
                    job,
                    Answer::Take(TakeAnswer::Got(item)),
                );
                self.store(word, passed);
                kind
            }
        }
    }
}
