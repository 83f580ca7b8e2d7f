//! Tests of what crosses crates, and of what the corpus of the program can't show.
//!
//! Of the machines and the crates above them: steps by their kinds, refused calls (`machines`, `counters`), histories that no
//! queue leaves (`audits`), devices that fail (`devices`, by `tasks`), values that no report shows (`readers`), statuses, and
//! the content of a page (`pages`).
//!
//! Of the shared queue: rounds by threads whose receipts are audited (`on_threads`, `shared_fifo`), begins and turns that take
//! no memory (`no_memory`), and calls that wait (`waiting`). Of topics: what is refused and in which order, and how names lead
//! to numbers (`topics`). Of drives: runs with gates that go on, that wait for each other, and that never let a worker go on
//! (`gates`, `drives`, `two_at_once`). More rows of begins and turns, and abandoned calls, are in the tests of the bindings,
//! which make these calls.
#![tactic(auto)]

#[cfg(test)]
mod audits;
#[cfg(test)]
mod counters;
#[cfg(test)]
mod devices;
#[cfg(test)]
mod drives;
#[cfg(test)]
mod gates;
#[cfg(test)]
mod machines;
#[cfg(test)]
mod no_memory;
#[cfg(test)]
mod on_threads;
#[cfg(test)]
mod pages;
#[cfg(test)]
mod readers;
#[cfg(test)]
mod shared_fifo;
#[cfg(test)]
mod statuses;
#[cfg(test)]
mod tasks;
#[cfg(test)]
mod topics;
#[cfg(test)]
mod two_at_once;
#[cfg(test)]
mod waiting;
