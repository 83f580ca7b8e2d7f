//! A queue driven by threads: senders and receivers, each a thread of its own, and the audit of all their receipts.
//!
//! In layers: a call within the turns of its worker (`turns`, `gate`, `calls`, `pace`); the work of a sender, of a receiver and
//! of the closer (`sending`, `receiving`, `closing`), with the receipts that they keep (`receipts`); their threads, started and
//! joined in a row (`jobs`, `starting`, `threads`, `crew`); the end of a run (`ending`); and the whole of it (`driver`).
#![tactic(auto)]

mod calls;
mod clauses;
mod closing;
mod config;
mod crew;
mod driver;
mod ending;
mod gate;
mod jobs;
mod meeting;
mod pace;
mod receipts;
mod receiving;
mod sending;
mod starting;
mod threads;
mod turns;

pub use clauses::clauses_refuse;
pub use config::{DriveConfig, DriveEnd, DriveFault};
pub use driver::drive;
pub use gate::{Gate, Go, Point};
