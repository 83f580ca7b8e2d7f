//! The configuration of a run, its end, and why it has no end.
ghost use Rattle.std.specs.Prelude.{◌≡◌, IfOk, OnOk, IfErr, Ok, Err};
ghost use Rattle.cc_model.specs.Config.{config_fault};
ghost use Rattle.cc_drive.specs.Config.{drive_fault, queue_of};
ghost use Rattle.cc_drive.specs.Names.{DriveFault};

use cc_audit::Verdict;
use cc_model::{CheckedConfig, Config, ConfigFault, is_within};
use std::alloc::AllocError;
use thiserror::Error;

/// How many threads send and take, how many items each sender sends, and the queue between them.
#[derive(Clone, Copy, Debug, PartialEq, Eq)]
pub struct DriveConfig {
    /// Threads that send, 1 to 63. The queue has one sender more, which closes it.
    pub senders: u32,
    /// Threads that take, 1 to 64.
    pub receivers: u32,
    /// How many items each sender sends.
    pub items: u64,
    /// How many items may wait, 1 to 4096.
    pub capacity: u32,
    /// How many calls one combiner serves in a row, 1 to 1024.
    pub bound: u32,
    /// How many turns each worker may make. A turn is one read of a call's state with what follows it, or a question to a
    /// gate that is answered with Again.
    pub limit: u64,
}

/// How a run ended.
#[derive(Clone, Copy, Debug, PartialEq, Eq)]
pub struct DriveEnd {
    /// How many sends were accepted.
    pub sent: u64,
    /// How many items were taken.
    pub taken: u64,
    /// The verdict of the audit of all receipts.
    pub verdict: Verdict,
}

/// Why a run has no end. If several hold, it is the first of Thread, Limit and NoMemory.
#[derive(Clone, Copy, Debug, PartialEq, Eq, Error)]
pub enum DriveFault {
    /// A number is out of its range.
    #[error("a number is out of its range")]
    Config(ConfigFault),
    /// Memory was refused.
    #[error("out of memory")]
    NoMemory,
    /// A thread was refused.
    #[error("a thread was refused")]
    Thread,
    /// A worker reached its limit: on turns, or, as a sender, on sends that one sender may begin. It is the least number of
    /// such a worker, senders first, from 0; if the closer alone did, the number of all workers.
    #[error("a worker reached its limit")]
    Limit(u32),
}

impl From<ConfigFault> for DriveFault {
    ghost from_gives = { λ from told. told ≡ DriveFault.Config from };

    fn from(fault: ConfigFault) -> DriveFault {
        DriveFault::Config(fault)
    }
}

impl From<AllocError> for DriveFault {
    ghost from_gives = { λ _ told. told ≡ DriveFault.NoMemory };

    fn from(_: AllocError) -> DriveFault {
        DriveFault::NoMemory
    }
}

impl DriveConfig {
    /// The configuration of the queue, with one sender more; or the first field out of its range.
    pub fn queue(&self) -> Result<CheckedConfig, ConfigFault>
        ensures config { IfOk result (λ c. c ≡ queue_of self.now) }
        ensures valid { OnOk result (config_fault (queue_of self.now) ≡ Ok tt) }
        ensures fine { OnOk result (drive_fault self.now ≡ Ok tt) }
        ensures fault { IfErr result (λ f. drive_fault self.now ≡ Err f) }
    {
        if !is_within(u64::from(self.senders), 1, 63) {
            return Err(ConfigFault::Senders);
        }
        let config = Config {
            senders: self.senders + 1,
            receivers: self.receivers,
            capacity: self.capacity,
            bound: self.bound,
            life: 1 << 48,
            per_sender: u32::MAX,
            groups: 1,
        };
        CheckedConfig::of(&config)
    }
}
