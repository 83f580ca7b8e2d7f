//! The queue's machine on a processor with store buffers: x86-TSO (Sewell, Sarkar, Owens, Zappa Nardelli and Myreen, CACM 2010).
//!
//! There a store by a plain move waits in its thread's buffer, which that thread alone reads, and a locked instruction first
//! lets the buffer drain. If the operation after each plain store is a store or a locked instruction, and neither a load of a
//! shared word nor a return, then nothing that a thread reads or returns shows that there are store buffers. A thread may also
//! load and return while its stores wait, if no other thread touches their words meanwhile, but by loads that find what was
//! there before, and wait. The laws here say so of any threads, and of the passes of the queue.
#![tactic(auto)]

mod laws;
mod litmus_laws;

pub use laws::{
    buffers_are_not_seen, code_follows_with_buffers, driven_runs_are_by_passes,
    driven_runs_are_linearizable, fenced_stores_are_orderly, histories_are_legal_on_x86,
    most_are_fenced, posted_stores_are_not_seen, premise_of_code, runs_are_linearizable_on_x86,
    runs_are_those_of_atomic_steps, runs_with_early_stores_are_linearizable,
};
pub use litmus_laws::{marks_of_sends_are_needed, message_passing, store_buffering};
