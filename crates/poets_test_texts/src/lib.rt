//! Texts cut, read and printed, and sessions, by the public functions of the front end.
#![tactic(auto)]

#[cfg(test)]
mod lex;
#[cfg(test)]
mod names;
#[cfg(test)]
mod print;
#[cfg(test)]
mod put;
#[cfg(test)]
mod session;
#[cfg(test)]
mod stored;
#[cfg(test)]
mod types;
