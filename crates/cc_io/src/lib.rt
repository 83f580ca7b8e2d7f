//! The sources and sinks of bytes, the reading of a whole input, the writing of texts piece by piece, and the line of a
//! fault.
#![tactic(auto)]

mod clauses;
mod device;
mod fault_line;
mod input;
mod pen;

pub use clauses::clauses_refuse;
pub use device::{Device, DeviceFault, Sink, Source};
pub use fault_line::{out_of_memory, told};
pub use input::{INPUT_LIMIT, InputFault, read_input};
pub use pen::{Pen, WriteFault, write_bytes};
