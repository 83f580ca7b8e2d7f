//! The next atomic step of a pass, chosen by its place.
ghost use Rattle.std.specs.Prelude.{◌≡◌, ◌<◌, ◌/◌, length};
ghost use Rattle.cc_machine.specs.BoardSteps.{state_of, phase_of, IsLaid, CanStep, stepper_at, Moved};
ghost use Rattle.cc_runs.specs.State.{chain_of};
ghost use Rattle.cc_machine.specs.Machine.{waits_at};

use crate::board::{Board, Stepper};
use cc_runs::{Chain, Event, NodeField, Phase, Stand, Word};

/// A quotient, without a division if it is 0, as is the group of every receiver if there is one group.
fn quotient(number: usize, by: usize) -> usize
    requires { 0 < by }
    ensures { result ≡ number / by }
{
    if number < by { 0 } else { number / by }
}

impl Board {
    /// The state of a pass.
    #[tactic(auto, unfolding(crate::specs::View::state_in))]
    pub fn stand(&self, pass: usize) -> Stand
        requires { pass < length self.now.stands.items }
        ensures { result ≡ (state_of self.now).stand pass }
    {
        self.stands[pass]
    }

    pub fn chain(&self, pass: usize) -> Chain
        requires laid { IsLaid self.now }
        requires pass { pass < length self.now.stands.items }
        ensures { result ≡ chain_of self.now.setting.config pass }
    {
        if pass < self.setting.config.senders as usize {
            Chain::Send
        } else {
            let receiver = pass - self.setting.config.senders as usize;
            Chain::Take(quotient(receiver, self.setting.config.receivers as usize) as u32)
        }
    }

    /// The state of the pass at this place of the row, of this chain.
    #[tactic(auto, unfolding(crate::specs::View::state_in))]
    pub fn stepper(&self, pass: usize, chain: Chain) -> Stepper
        requires pass { pass < length self.now.stands.items }
        requires chain { chain ≡ chain_of self.now.setting.config pass }
        ensures { result ≡ stepper_at self.now pass }
    {
        Stepper {
            pass,
            chain,
            begun: self.stands[pass].begun,
            node: self.stands[pass].node,
        }
    }

    /// Whether the next step of a pass reads a state that still waits.
    pub fn is_waiting(&self, pass: usize) -> bool
        requires pass { pass < length self.now.stands.items }
        requires can { CanStep self.now (stepper_at self.now pass) ((state_of self.now).stand pass).phase }
        ensures { result ≡ waits_at self.now.setting (state_of self.now) pass ((state_of self.now).stand pass).phase }
    {
        let stand = self.stand(pass);
        let Phase::ReadState = stand.phase else {
            return false;
        };
        self.load(Word::Node(self.chain(pass), stand.node, NodeField::State)) == 1
    }

    /// The next atomic step of a pass, if it has one.
    pub fn event(&mut self, who: Stepper) -> Event
        requires pass { who.pass < length self.old.stands.items }
        requires who { who ≡ stepper_at self.old who.pass }
        requires can { CanStep self.old who (phase_of self.old who) }
        ensures { Moved self.old who.pass result self.new }
    {
        match self.step(who, self.stand(who.pass).phase) {
            Some(kind) => Event::Did(kind),
            None => Event::Idle,
        }
    }
}
