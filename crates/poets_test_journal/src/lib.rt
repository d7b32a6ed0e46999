//! Disks and journals, tried: what a crash leaves of a disk in memory, and of a journal that is stopped at each of its
//! calls; files that are damaged; a machine whose disk fails; and a real file.
#![tactic(auto)]

#[cfg(test)]
mod damage;
#[cfg(test)]
mod file;
#[cfg(test)]
mod images;
#[cfg(test)]
mod making;
#[cfg(test)]
mod stops;
#[cfg(test)]
mod stored;
