//! The queue for C and for what calls C: a static library over `cc_passes`.
//!
//! `handle_exports` has its calls, which are made by handles: `bindings/c/handles.h` is their header.
#![tactic(auto)]

mod handle_exports;
mod version;
