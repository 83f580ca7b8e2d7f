//! The calls of a sender.
ghost use Rattle.std.specs.Prelude.{◌≡◌, ◌<◌, ◌++◌, ◌^◌, ◌-◌, IfOk, IfSome, OnOk, [], ◌∷◌, length, get_or, true};
ghost use Rattle.std.specs.List.{AllByRecursion, list_all, slice_get};
ghost use Rattle.cc_plan.specs.CompactCall.{has_body};

use super::compact_call::CompactCall;
use cc_model::{Body, Call};
use std::alloc::{AllocError, Global};

/// The calls of a sender, in their order. A close and a send of one word take 16 bytes, and another send takes 40 more.
#[derive(Drop)]
pub struct Calls {
    calls: Vec<CompactCall>,
    bodies: Vec<Body>,
    ghost kept: { list_all (has_body (length bodies.items)) calls.items ≡ true },
}

impl Calls {
    ghost use Rattle.cc_plan.specs.Calls.{calls_in};
    ghost use Rattle.cc_plan.specs.CompactCall.{call_in};
    ghost use Rattle.cc_plan.specs.Names.{Call};
    ghost use Rattle.cc_plan.specs.PlanLaws.{IsOfSender};

    /// No calls.
    pub fn new(alloc: Global) -> Calls
        ensures { calls_in result ≡ [] }
    {
        Calls {
            calls: Vec::new(alloc),
            bodies: Vec::new(alloc),
        }
    }

    /// These calls, which are a sender's.
    pub fn of(alloc: Global, calls: Vec<Call>) -> Result<Calls, AllocError>
        requires { AllByRecursion IsOfSender calls.items }
        ensures { IfOk result (λ own. calls_in own ≡ calls.items) }
    {
        let mut own = Calls::new(alloc);
        for call in calls {
            own.push(call)?;
        }
        Ok(own)
    }

    /// The same calls as a list of their own.
    pub fn to_vec(&self, alloc: Global) -> Result<Vec<Call>, AllocError>
        ensures { IfOk result (λ list. list.items ≡ calls_in self.now) }
    {
        let mut list = Vec::new(alloc);
        while list.len() < self.len() {
            list.push(self.at(list.len()))?;
        }
        Ok(list)
    }

    /// The number of calls.
    pub fn len(&self) -> usize
        ensures { result ≡ length (calls_in self.now) }
    {
        self.calls.len()
    }

    /// The call at a place, from 0, if there is one.
    pub fn get(&self, place: usize) -> Option<Call>
        ensures call { result ≡ slice_get (calls_in self.now) place }
        ensures countable { IfSome result (λ _. place < 2 ^ 64 - 1) }
    {
        if place < self.len() {
            Some(self.at(place))
        } else {
            None
        }
    }

    /// The call at a place, from 0.
    pub fn at(&self, place: usize) -> Call
        requires { place < length (calls_in self.now) }
        ensures { result ≡ get_or (calls_in self.now) place result }
    {
        self.call_of(self.calls[place])
    }

    /// The call, whose body may be in the list of bodies.
    fn call_of(&self, call: CompactCall) -> Call
        requires { has_body (length self.now.bodies.items) call ≡ true }
        ensures { result ≡ call_in self.now.bodies.items call }
    {
        match call {
            CompactCall::Close => Call::Close,
            CompactCall::Word(word) => Call::Send(Body::one(word)),
            CompactCall::Body(place) => Call::Send(self.bodies[place]),
        }
    }

    /// Puts a call of a sender after the others.
    pub fn push(&mut self, call: Call) -> Result<(), AllocError>
        requires { IsOfSender call }
        ensures { OnOk result (calls_in self.new ≡ calls_in self.old ++ call ∷ []) }
    {
        match call {
            Call::Send(body) => self.push_send(body),
            _ => self.push_compact(CompactCall::Close),
        }
    }

    fn push_send(&mut self, body: Body) -> Result<(), AllocError>
        ensures { OnOk result (calls_in self.new ≡ calls_in self.old ++ Call.Send body ∷ []) }
    {
        match body.words() {
            [word] => self.push_compact(CompactCall::Word(*word)),
            _ => self.push_body(body),
        }
    }

    fn push_body(&mut self, body: Body) -> Result<(), AllocError>
        ensures { OnOk result (calls_in self.new ≡ calls_in self.old ++ Call.Send body ∷ []) }
    {
        let place = self.bodies.len();
        self.bodies.push(body)?;
        self.push_compact(CompactCall::Body(place))?;
        Ok(())
    }

    /// The same calls, without the memory that was reserved for others to come.
    pub fn shrunk(mut self) -> Calls
        ensures { calls_in result ≡ calls_in self }
    {
        self.calls.shrink_to_fit();
        self.bodies.shrink_to_fit();
        self
    }

    fn push_compact(&mut self, call: CompactCall) -> Result<(), AllocError>
        requires { has_body (length self.old.bodies.items) call ≡ true }
        ensures { OnOk result (calls_in self.new ≡ calls_in self.old ++ call_in self.old.bodies.items call ∷ []) }
    {
        self.calls.push(call)?;
        Ok(())
    }
}
