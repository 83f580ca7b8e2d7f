//! The opening of a queue for C.
ghost use Rattle.std.specs.Prelude.{◌≡◌, ◌≢◌, ◌*◌, length, map, IfOk, IfErr, OnOk, Some};
ghost use Rattle.cc_queue.specs.Opened.{HasOpened};
ghost use Rattle.cc_steps.specs.Walk.{fresh_from};
ghost use Rattle.cc_passes.specs.Passes.{pass_as, holding, IsHeldOf};
ghost use Rattle.cc_passes.specs.Names.{AnyPass};
ghost use Rattle.cc_passes.specs.declared.return_codes.TheConstants.{DONE};
ghost use Rattle.std.specs.List.{list_all};
ghost use Rattle.cc_passes.specs.Handles.{is_empty};
ghost use Rattle.cc_passes.specs.OpenHandles.{config_of, field_code, are_free, refusal, HoldFresh, HaveOpened};
ghost use Rattle.cc_passes.specs.Items.{are_few};

use crate::handle::Handle;
use crate::handle_inner::{HandleInner, HeldPass, give_up};
use crate::return_codes::{
    BAD_BOUND, BAD_CAPACITY, BAD_GROUPS, BAD_HANDLES, BAD_LIFE, BAD_PER_SENDER, BAD_RECEIVERS,
    BAD_SENDERS, BAD_WORDS,
};
use cc_model::{CheckedConfig, Config, ConfigFault};
use cc_queue::{HeldReceiver, HeldSender, Opened, Queue, Receiver, Sender};
use std::alloc::{AllocError, Global};

/// The configuration of an opening, as C gives it. The number of groups of receivers is a further argument: the four bytes
/// after `per_sender` are padding, which C leaves undefined.
#[repr(C)]
#[derive(Clone, Copy)]
pub struct Settings {
    pub senders: u32,
    pub receivers: u32,
    pub capacity: u32,
    pub bound: u32,
    pub life: u64,
    pub per_sender: u32,
}

impl Settings {
    /// The configuration that it is, with this number of groups.
    pub fn config(&self, groups: u32) -> Config
        ensures { result ≡ config_of self.now groups }
    {
        Config {
            senders: self.senders,
            receivers: self.receivers,
            capacity: self.capacity,
            bound: self.bound,
            life: self.life,
            per_sender: self.per_sender,
            groups,
        }
    }
}

/// The code of a field that is out of its range.
pub fn field_code(fault: ConfigFault) -> u32
    ensures code { result ≡ field_code fault }
    ensures told { result ≢ DONE }
{
    match fault {
        ConfigFault::Senders => BAD_SENDERS,
        ConfigFault::Receivers => BAD_RECEIVERS,
        ConfigFault::Capacity => BAD_CAPACITY,
        ConfigFault::Bound => BAD_BOUND,
        ConfigFault::Life => BAD_LIFE,
        ConfigFault::PerSender => BAD_PER_SENDER,
        ConfigFault::Groups => BAD_GROUPS,
    }
}

/// Whether each handle is empty.
fn are_empty(handles: &[Handle]) -> bool
    ensures { result ≡ list_all is_empty handles.now }
{
    handles.iter().all(|handle| !handle.live)
}

/// Whether there are this number of handles, and each is empty.
fn are_free(handles: &[Handle], count: u32) -> bool
    ensures { result ≡ are_free count handles.now }
{
    handles.len() == count as usize && are_empty(handles)
}

/// Whether a body may have this number of words.
pub fn are_few(words: u32) -> bool
    ensures { result ≡ are_few words }
{
    1 <= words && words <= 4
}

/// The configuration, once it and the number of words are checked, and the handles are found empty and as many as its passes;
/// or the code for which the queue isn't opened.
pub fn check(
    config: &Config,
    words: u32,
    senders: &[Handle],
    receivers: &[Handle],
) -> Result<CheckedConfig, u32>
    ensures config { IfOk result (λ c. c ≡ config.now) }
    ensures free { OnOk result (refusal config.now words senders.now receivers.now ≡ DONE) }
    ensures refused { IfErr result (λ code. code ≡ refusal config.now words senders.now receivers.now) }
    ensures told { IfErr result (λ code. code ≢ DONE) }
{
    let checked = match CheckedConfig::of(config) {
        Ok(checked) => checked,
        Err(fault) => return Err(field_code(fault)),
    };
    if !are_few(words) {
        return Err(BAD_WORDS);
    }
    let all_receivers = config.groups * config.receivers;
    if are_free(senders, config.senders) && are_free(receivers, all_receivers) {
        Ok(checked)
    } else {
        Err(BAD_HANDLES)
    }
}

/// A pass with its own share of the queue, for a handle.
pub fn held(
    alloc: Global,
    queue: &Queue,
    words: u32,
    pass: HeldPass,
) -> Result<Box<HandleInner>, AllocError>
    requires { IsHeldOf queue.now (Some pass) }
    ensures { IfOk result (λ k. k.value ≡ holding words (pass_as pass)) }
{
    match queue.share() {
        Ok(queue) => Ok(Box::new(alloc, HandleInner::new(queue, words, pass))?),
        Err(refused) => {
            give_up(pass);
            Err(refused)
        }
    }
}

/// The senders so, in order.
#[tactic(auto, using(crate::proofs::Filling::is_of, cc_queue::proofs::Seated::other_seats, crate::proofs::Filling::next_held))]
fn keep_senders(
    alloc: Global,
    queue: &Queue,
    words: u32,
    mut senders: Vec<Sender>,
) -> Result<Vec<Box<HandleInner>>, AllocError>
    requires { fresh_from queue.now 0 senders.items }
    ensures count { IfOk result (λ k. length k.items ≡ length senders.items) }
    ensures fresh { IfOk result (λ k. HoldFresh k.items (λ b. b.value) AnyPass.Sender words queue.now 0) }
{
    let mut all = Vec::new(alloc);
    for _row in 0..senders.len() {
        let pass = HeldPass::Sender(HeldSender::of(senders.remove(0)));
        all.push(held(alloc, queue, words, pass)?)?;
    }
    Ok(all)
}

/// The same for the receivers, which come after this number of senders in the row of passes.
#[tactic(auto, using(crate::proofs::Filling::is_of, cc_queue::proofs::Seated::other_seats, crate::proofs::Filling::next_held))]
fn keep_receivers(
    alloc: Global,
    queue: &Queue,
    words: u32,
    _first: u32,
    mut receivers: Vec<Receiver>,
) -> Result<Vec<Box<HandleInner>>, AllocError>
    requires { fresh_from queue.now _first receivers.items }
    ensures count { IfOk result (λ k. length k.items ≡ length receivers.items) }
    ensures fresh { IfOk result (λ k. HoldFresh k.items (λ b. b.value) AnyPass.Receiver words queue.now _first) }
{
    let mut all = Vec::new(alloc);
    for _row in 0..receivers.len() {
        let pass = HeldPass::Receiver(HeldReceiver::of(receivers.remove(0)));
        all.push(held(alloc, queue, words, pass)?)?;
    }
    Ok(all)
}

/// Puts each of these into the handle of its place.
fn fill(handles: &mut [Handle], mut all: Vec<Box<HandleInner>>)
    requires { length all.items ≡ length handles.old }
    ensures { map (λ h. h.boxed.value) handles.new ≡ map (λ b. Some b.value) all.items }
{
    for at in 0..handles.len() {
        let held = all.remove(0);
        handles[at] = Handle::of(held);
    }
}

/// Puts the passes of a queue that was opened, whose bodies have at most this number of words, into the handles.
fn hand_out(
    alloc: Global,
    config: &Config,
    words: u32,
    opened: Opened,
    senders: &mut [Handle],
    receivers: &mut [Handle],
) -> Result<(), AllocError>
    requires opened { HasOpened config.now opened }
    requires senders { length senders.old ≡ config.now.senders }
    requires receivers { length receivers.old ≡ config.now.groups * config.now.receivers }
    ensures opened { IfOk result (λ _. HaveOpened config.now words senders.new receivers.new) }
    ensures same { IfErr result (λ _. (senders.new ≡ senders.old) × (receivers.new ≡ receivers.old)) }
{
    let Opened {
        queue,
        senders: sending,
        receivers: taking,
    } = opened;
    let sending = keep_senders(alloc, &queue, words, sending)?;
    let taking = keep_receivers(alloc, &queue, words, config.senders, taking)?;
    fill(senders, sending);
    fill(receivers, taking);
    Ok(())
}

/// Opens a queue, whose bodies have at most this number of words, over handles that are empty.
pub fn open(
    alloc: Global,
    config: &CheckedConfig,
    words: u32,
    senders: &mut [Handle],
    receivers: &mut [Handle],
) -> Result<(), AllocError>
    requires senders { length senders.old ≡ config.now.senders }
    requires receivers { length receivers.old ≡ config.now.groups * config.now.receivers }
    ensures opened { IfOk result (λ _. HaveOpened config.now words senders.new receivers.new) }
    ensures same { IfErr result (λ _. (senders.new ≡ senders.old) × (receivers.new ≡ receivers.old)) }
{
    let opened = Queue::open_checked(alloc, config)?;
    hand_out(alloc, config.config(), words, opened, senders, receivers)
}
