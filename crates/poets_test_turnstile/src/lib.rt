//! Machines, turnstiles and clerks, tried over an adder.
#![tactic(auto)]

#[cfg(test)]
mod clerks;
#[cfg(test)]
mod machine;
#[cfg(test)]
mod turn;
