//! Worked sessions, run through the whole program.
#![tactic(auto)]

#[cfg(test)]
mod books;
#[cfg(test)]
mod ends;
#[cfg(test)]
mod gate;
#[cfg(test)]
mod journals;
#[cfg(test)]
mod limits;
#[cfg(test)]
mod long_withdrawals;
#[cfg(test)]
mod many;
#[cfg(test)]
mod past;
#[cfg(test)]
mod portfolios;
#[cfg(test)]
mod program;
#[cfg(test)]
mod refusals;
#[cfg(test)]
mod sale;
#[cfg(test)]
mod sealed;
#[cfg(test)]
mod sessions;
#[cfg(test)]
mod streams;
#[cfg(test)]
mod table;
#[cfg(test)]
mod tables;
#[cfg(test)]
mod tallies;
#[cfg(test)]
mod templates;
#[cfg(test)]
mod texts;
#[cfg(test)]
mod unread;
#[cfg(test)]
mod watches;
#[cfg(test)]
mod wide;
#[cfg(test)]
mod withdrawals;
