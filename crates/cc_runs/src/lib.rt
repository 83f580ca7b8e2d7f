//! The runs of the queue's machine: its words, the phase of a pass, what each atomic step does, and the laws of every run.
//!
//! A machine is one combining chain round a counter, or the queue, with the senders' and the receivers' chains round one
//! list. The chains are CC-Synch, and the queue is CC-Queue (Fatourou and Kallimanis, PPoPP 2012), which puts them into
//! the two-lock list queue (Michael and Scott, PODC 1996). A run is any order of the begins, the steps and the takings of
//! answers of all passes; no code here does one. The laws of all of them are the contracts of functions with empty bodies:
//! the machine of one thread rests on these laws, and so does the queue that threads share.
#![tactic(auto)]

mod chain_laws;
mod count_laws;
mod encoding;
mod fault;
mod linear_laws;
mod list_laws;
mod node_laws;
mod phase;
mod progress_laws;
mod run;
mod run_laws;
mod setting;
mod word;

pub use chain_laws::{
    calls_end_answered, calls_wait_for_their_link, laws_of_calls, laws_of_chains, laws_of_counters,
    numbers_of_sends,
};
pub use count_laws::{
    counts_are_near, counts_grow, ended_calls_are_seen, looks_find_full, looks_find_none,
};
pub use encoding::{
    CODE, body_in, body_words, count_word, further_words, item_of, list_reads, packed, request_in,
    ret_of, sender_reads, tag_of, words_in,
};
pub use fault::OpenFault;
pub use linear_laws::{
    exact_orders_go_on, orders_are_real_time, orders_keep_time, orders_of_runs_agree,
    runs_are_linearizable, small_orders_are_told_apart,
};
pub use list_laws::{
    answers_are_told, busy_nodes_are_items, histories_are_fifo, histories_are_legal,
    links_name_nodes, nodes_are_prepared_alone, nodes_are_reset_after_their_take,
    numbers_stay_within, prefixes_of_runs_begin, prepared_node_is_busy, scans_are_short,
    steps_are_ready,
};
pub use node_laws::laws_of_nodes;
pub use phase::{
    BodyWords, Counting, Event, Job, Kind, Parcel, Phase, Request, Round, Sending, Stand, Taking,
};
pub use progress_laws::{
    ahead_is_bounded, answers_come_soon, calls_are_served, each_call_ends, each_call_is_answered,
    it_is_someones_turn, moves_bring_nearer, no_call_is_stuck, open_calls_are_few, small_waits,
    stopped_calls_stop_none_before, stopped_turns_stop_those_behind, turns_are_few,
    waits_are_short, wrong_steps_are_refused,
};
pub use run::Move;
pub use run_laws::{others_leave_a_pass, prefixes_know_no_more};
pub use setting::{Served, Setting};
pub use word::{Chain, ItemField, NodeField, Object, Word, address, node_after};
