//! Sources and sinks of bytes that count their faults: in memory, and over std's readers and writers.
#![tactic(auto)]

mod bytes;
mod faults;
mod lists;
mod plan;
mod std_io;
mod stream;
mod sure;
mod text;
mod whole;

pub use faults::{Failed, ReadFault};
pub use lists::{append, copied};
pub use std_io::{StdSink, StdSource};
pub use stream::{Sink, Source};
pub use sure::{SureSink, SureSource};
pub use text::{TextSink, TextSource};
pub use whole::{BLOCK, read_up_to, write_all};
