//! The rows of a combiner that serves a call to the counter.
ghost use Rattle.cc_machine.specs.BoardSteps.{CanStep, Stepped};

use crate::board::{Board, Stepper};
use cc_model::{Answer, SendAnswer};
use cc_runs::{Chain, Counting, Job, Kind, NodeField, Object, Phase, Word, further_words};

impl Board {
    /// The step of the combiner in the service of a request to the counter.
    #[inline(always)]
    #[tactic(auto, using(cc_runs::proofs::Chains::Facts::noted_none))]
    pub fn count(&mut self, who: Stepper, job: Job, service: Counting) -> Kind
        requires { CanStep self.old who (Phase.Counting job service) }
        ensures { Stepped self.old who (Phase.Counting job service) result self.new }
    {
        match service {
            Counting::ReadTag => {
                let tag = self.load(Word::Node(Chain::Send, job.round.at, NodeField::Tag));
                let service = Counting::ReadBody { tag, index: 0 };
                self.loads(who, Kind::ReadRequest, Phase::Counting { job, service })
            }
            Counting::ReadBody { tag, index } => {
                let _word = self.load(Word::Node(
                    Chain::Send,
                    job.round.at,
                    NodeField::Body(index),
                ));
                let service = if index < further_words(tag) {
                    Counting::ReadBody {
                        tag,
                        index: index + 1,
                    }
                } else {
                    Counting::ReadCount
                };
                self.loads(who, Kind::ReadRequest, Phase::Counting { job, service })
            }
            Counting::ReadCount => {
                let service = Counting::WriteCount {
                    count: self.load(Word::Object(Object::Count)),
                };
                self.loads(who, Kind::ReadObject, Phase::Counting { job, service })
            }
            Counting::WriteCount { count } => {
                let word = Word::Object(Object::Count);
                let answer = Answer::Send(SendAnswer::Accepted { place: count });
                self.decide(who.chain, answer);
                self.stores(
                    who,
                    Kind::WriteObject,
                    word,
                    count + 1,
                    Phase::WriteAnswer { job, answer },
                )
            }
        }
    }
}
