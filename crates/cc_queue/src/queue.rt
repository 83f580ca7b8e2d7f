//! A queue that threads share, and its opening.
ghost use Rattle.std.specs.Arc.{arc_value};
ghost use Rattle.std.specs.Prelude.{◌≡◌, ◌+◌, ◌*◌, ◌-◌, ◌≤◌, ◌<◌, length, IfOk, MatchResult, Ok};
ghost use Rattle.cc_model.specs.Config.{config_fault};
ghost use Rattle.cc_queue.specs.Names.{Served};
ghost use Rattle.cc_runs.specs.Opening.{IsOpenFault};
ghost use Rattle.cc_runs.specs.Words.{groups};
ghost use Rattle.cc_steps.specs.Opened as opened_words;
ghost use Rattle.cc_steps.specs.Walk.{fresh, fresh_from};
ghost use Rattle.cc_queue.specs.Opened.{HasOpened};

use crate::passes::{Receiver, ReceiverSeat, Sender, SenderSeat};
use cc_model::{CheckedConfig, Config};
use cc_runs::OpenFault;
use cc_steps::seats::PassSeat;
use cc_steps::words::{OpenedWords, Words};
use std::alloc::{AllocError, Global};
use std::marker::Model;
use std::sync::Arc;

/// One queue: a share of its words, and its configuration. Threads hold it by reference, and their own passes.
#[derive(Drop)]
pub struct Queue {
    pub(crate) words: Words,
    pub(crate) config: Config,
}

impl Model for Queue {
    ghost use Rattle.cc_steps.specs.Topic.{Topic};
    ghost use Rattle.cc_queue.specs.Passes.{KeepsQueue};

    ghost Value = { Topic };

    ghost view = { λ q. q.words };

    ghost invariant = { λ q. KeepsQueue q.words q.config };
}

/// A queue that was opened, with all its passes.
#[derive(Drop)]
pub struct Opened {
    pub queue: Queue,
    /// The senders in order, from number 1 on.
    pub senders: Vec<Sender>,
    /// The receivers in order, from number 1 on.
    pub receivers: Vec<Receiver>,
}

/// A sender on the seat of its pass.
fn sender_on(words: Arc<Words, Global>, seat: PassSeat, config: &Config, row: u32) -> Sender
    requires setting { (arc_value words).setting ≡ record { served = Served.List; config = config.now } }
    requires checked { config_fault config.now ≡ Ok tt }
    requires row { row < config.now.senders }
    requires fresh { seat ≡ fresh (arc_value words) row }
    ensures { result ≡ seat }
{
    Sender {
        at: SenderSeat {
            words,
            seat,
            node: row as u64 + 1,
            number: row + 1,
            limit: config.per_sender,
            begun: 0,
        },
    }
}

/// A receiver on the seat of its pass, which comes after all senders in the row of passes.
#[tactic(auto, using(crate::proofs::Seated::receivers_chain, crate::proofs::Seated::receivers_name, crate::proofs::Seated::receivers_stand, crate::proofs::Seated::few_places, crate::proofs::Seated::few_groups, crate::proofs::Seated::some_receivers))]
fn receiver_on(words: Arc<Words, Global>, seat: PassSeat, config: &Config, place: u32) -> Receiver
    requires setting { (arc_value words).setting ≡ record { served = Served.List; config = config.now } }
    requires checked { config_fault config.now ≡ Ok tt }
    requires place { place < groups config.now * config.now.receivers }
    requires fresh { seat ≡ fresh (arc_value words) (config.now.senders + place) }
    ensures { result ≡ seat }
{
    Receiver {
        at: ReceiverSeat {
            words,
            seat,
            node: (place % config.receivers) as u64 + 1,
            number: place + 1,
            group: place / config.receivers,
        },
    }
}

#[tactic(auto, using(crate::proofs::Seated::first_seat, crate::proofs::Seated::other_seats, crate::proofs::Seated::next_pass))]
fn all_senders(
    alloc: Global,
    words: &Arc<Words, Global>,
    mut seats: Vec<PassSeat>,
    config: &Config,
) -> Result<Vec<Sender>, AllocError>
    requires setting { (arc_value words.now).setting ≡ record { served = Served.List; config = config.now } }
    requires checked { config_fault config.now ≡ Ok tt }
    requires count { length seats.items ≡ config.now.senders }
    requires fresh { fresh_from (arc_value words.now) 0 seats.items }
    ensures count { IfOk result (λ s. length s.items ≡ config.now.senders) }
    ensures fresh { IfOk result (λ s. fresh_from (arc_value words.now) 0 s.items) }
{
    let mut senders = Vec::new(alloc);
    for row in 0..config.senders {
        let seat = seats.remove(0);
        senders.push(sender_on(Arc::try_clone(words)?, seat, config, row))?;
    }
    Ok(senders)
}

#[tactic(auto, using(crate::proofs::Seated::first_seat, crate::proofs::Seated::other_seats, crate::proofs::Seated::next_pass))]
fn all_receivers(
    alloc: Global,
    words: &Arc<Words, Global>,
    mut seats: Vec<PassSeat>,
    config: &Config,
) -> Result<Vec<Receiver>, AllocError>
    requires setting { (arc_value words.now).setting ≡ record { served = Served.List; config = config.now } }
    requires checked { config_fault config.now ≡ Ok tt }
    requires count { length seats.items ≡ groups config.now * config.now.receivers }
    requires fresh { fresh_from (arc_value words.now) config.now.senders seats.items }
    ensures count { IfOk result (λ s. length s.items ≡ groups config.now * config.now.receivers) }
    ensures fresh { IfOk result (λ s. fresh_from (arc_value words.now) config.now.senders s.items) }
{
    let mut receivers = Vec::new(alloc);
    for place in 0..config.groups * config.receivers {
        let seat = seats.remove(0);
        receivers.push(receiver_on(Arc::try_clone(words)?, seat, config, place))?;
    }
    Ok(receivers)
}

/// The queue over its words, with a sender and a receiver on each seat.
fn over_words(
    alloc: Global,
    words: OpenedWords,
    config: &CheckedConfig,
) -> Result<Opened, AllocError>
    requires { opened_words.HasOpened config.now words }
    ensures { IfOk result (λ o. HasOpened config.now o) }
{
    let OpenedWords {
        words,
        senders,
        receivers,
    } = words;
    let config = config.config();
    let shared = Arc::new(alloc, words.share()?)?;
    let senders = all_senders(alloc, &shared, senders, config)?;
    let receivers = all_receivers(alloc, &shared, receivers, config)?;
    Ok(Opened {
        queue: Queue {
            words,
            config: *config,
        },
        senders,
        receivers,
    })
}

impl Queue {
    /// Opens a queue of this configuration with all its senders and receivers. The configuration is refused for its
    /// first field out of range; else memory may be refused, and then nothing is left. No later call of the queue takes
    /// memory.
    pub fn open(alloc: Global, config: &Config) -> Result<Opened, OpenFault>
        ensures { MatchResult result (λ o. HasOpened config.now o) (λ f. IsOpenFault config.now f) }
    {
        match CheckedConfig::of(config) {
            Ok(config) => Ok(Queue::open_checked(alloc, &config)?),
            Err(fault) => Err(OpenFault::Config(fault)),
        }
    }

    /// Opens a queue of a configuration that was checked, with all its senders and receivers. No later call of the queue
    /// takes memory.
    ///
    /// # Errors
    ///
    /// Memory was refused. Nothing is left then.
    pub fn open_checked(alloc: Global, config: &CheckedConfig) -> Result<Opened, AllocError>
        ensures { IfOk result (λ o. HasOpened config.now o) }
    {
        let words = Words::open(alloc, config)?;
        over_words(alloc, words, config)
    }

    /// Another share of the same queue, for an owner of its own.
    ///
    /// # Errors
    ///
    /// The count of shares is full; no memory is asked for.
    pub fn share(&self) -> Result<Queue, AllocError>
        ensures { IfOk result (λ q. q ≡ self.now) }
    {
        Ok(Queue {
            words: self.words.share()?,
            config: self.config,
        })
    }

    /// The words that its passes share.
    #[inline(always)]
    pub(crate) fn words(&self) -> &Words
        ensures { result.now ≡ self.now }
    {
        &self.words
    }

    /// Its configuration was checked: a fact for proofs, and no work.
    pub(crate) fn is_sound(&self)
        ensures { config_fault self.now.setting.config ≡ Ok tt }
    {
        let _config = &self.config;
    }
}
