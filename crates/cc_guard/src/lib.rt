//! A try-lock over a value with a log that only grows.
//!
//! A thread takes the value, or learns at once that another thread has it: no call waits. Each value has a log, and each
//! thread has seen a log from which the present one goes on. So what a thread has learned under the lock stays true after
//! the lock is released. `Kept` says what the log and the invariant of the values are.
//!
//! The lock is one word and one slot of `atomic_table`. A take is a compare-exchange and an exchange, a return an exchange
//! and a store.
#![tactic(auto)]

mod plays;
mod try_lock;

pub use plays::{Kept, Sight};
pub use try_lock::{Hold, Look, TryLock};
