//! The machines of the broker, one atomic step at a time: one combining chain round a counter, and the queue, with the
//! senders' and the receivers' chains round one list.
//!
//! A caller begins calls, chooses which pass does its next atomic step, and takes answers; so every order of the steps of
//! all passes can be played. Each event is one step of a run, and what holds of every run is proved in `cc_runs`.
#![tactic(auto)]

mod begins;
mod board;
mod chain_steps;
mod clauses;
mod count;
mod counter;
mod event;
mod fault;
mod known;
mod machine;
mod named;
mod open;
mod reads;
mod row;
mod send_service;
mod take_service;

pub use cc_runs::{Event, Kind, OpenFault};
pub use clauses::clauses_refuse;
pub use counter::CounterMachine;
pub use fault::BeginFault;
pub use machine::Machine;
