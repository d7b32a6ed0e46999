//! `keep` and `recover`, tried: on a disk in memory that is stopped at each write and sync, on journals that hold calls
//! or are damaged, and with words and texts that ask for no journal.
#![tactic(auto)]

#[cfg(test)]
mod clerks;
#[cfg(test)]
mod damage;
#[cfg(test)]
mod journals;
#[cfg(test)]
mod program;
#[cfg(test)]
mod session;
#[cfg(test)]
mod stops;
#[cfg(test)]
mod streams;
#[cfg(test)]
mod untouched;
