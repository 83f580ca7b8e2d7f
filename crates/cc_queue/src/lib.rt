//! A FIFO queue that threads share: CC-Queue, the two-lock list queue (Michael and Scott, PODC 1996) with a combining
//! chain in place of each lock (CC-Synch and CC-Queue, Fatourou and Kallimanis, PPoPP 2012).
//!
//! `Queue::open` gives the queue with all its senders and receivers, the passes. A pass is a value that its owner moves
//! into a call and gets back with the answer. A call is begun, and then it is asked for its answer in turns; if a pass
//! finds itself first in its chain, its turn serves others' calls too. None of these calls takes memory or waits; the
//! audit after all of them (`audit_all`) takes memory for the receipts.
//!
//! `specs/Headline.antt` says to which history every answer belongs, and `specs/Calls.antt` what each call returns.
#![tactic(auto)]

mod begins;
mod blocking;
mod bodies;
mod clauses;
mod combine;
mod counts;
mod given_up;
mod in_place;
mod meets;
mod notes;
mod passes;
mod pending;
mod queue;
mod receipts;
mod receiver;
mod sender;
mod sends;
mod takes;
mod tell;
mod turns;

pub use blocking::{close, send, send_until, take, take_until};
pub use cc_model::{CloseAnswer, Config, ConfigFault, Item, Pass, SendAnswer, TakeAnswer};
pub use cc_runs::OpenFault;
pub use cc_steps::notes::Note;
pub use clauses::clauses_refuse;
pub use counts::{Looks, looks_answer_empty, looks_answer_full};
pub use given_up::GivenUp;
pub use in_place::{HeldReceiver, HeldSender, SenderCall};
pub use meets::{Live, Meets, meet_all};
pub use notes::{again, heeded_is_fresh, heeded_stays, send_after, take_after, turns_complete};
pub use passes::{PendingClose, PendingSend, PendingTake, Receiver, Sender, Turn};
pub use pending::Pending;
pub use queue::{Opened, Queue};
pub use receipts::{AllPasses, Receipts, audit_all};
pub use receiver::{begin_take, turn_take};
pub use sender::{Worn, begin_close, begin_send, turn_close, turn_send};
