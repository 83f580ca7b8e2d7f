//! The words that every crate of the broker shares: configurations, calls and answers, and histories.
#![tactic(auto)]

mod body;
mod call;
mod config;
mod history;
mod laws;
mod tag;

pub use body::Body;
pub use call::{Answer, Call, CloseAnswer, Entry, Item, Pass, SendAnswer, TakeAnswer};
pub use config::{CheckedConfig, Config, ConfigFault, is_within};
pub use history::History;
pub use laws::{
    each_call_has_an_answer, empty_is_fresh, full_is_fresh, legal_gives_fifo,
    no_call_has_two_answers,
};
pub use tag::{pack, pack_words, unpack, unpack_words};
