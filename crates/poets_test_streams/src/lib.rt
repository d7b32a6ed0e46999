//! Sources and sinks, and marks of texts, by the public functions of `poets_io` and `poets_mark`.
#![tactic(auto)]

#[cfg(test)]
mod mark;
#[cfg(test)]
mod streams;
