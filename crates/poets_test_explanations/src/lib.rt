//! Worked sessions of `explain` and `export`, run through the whole program.
#![tactic(auto)]

#[cfg(test)]
mod books;
#[cfg(test)]
mod explanations;
#[cfg(test)]
mod exports;
#[cfg(test)]
mod program;
