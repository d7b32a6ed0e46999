//! `resume`, tried: day after day over one disk in memory, by one clerk and by several, stopped at each write and sync
//! of the second day, over journals that are damaged or hold no call, and with books that have changed.
#![tactic(auto)]

#[cfg(test)]
mod books;
#[cfg(test)]
mod clerks;
#[cfg(test)]
mod damage;
#[cfg(test)]
mod days;
#[cfg(test)]
mod program;
#[cfg(test)]
mod stops;
#[cfg(test)]
mod week;
