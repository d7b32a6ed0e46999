//! Expressions and contracts worked by hand, by the public functions of the calculus.
#![tactic(auto)]

#[cfg(test)]
mod cons;
#[cfg(test)]
mod contracts;
#[cfg(test)]
mod expr;
#[cfg(test)]
mod guard;
#[cfg(test)]
mod norm;
#[cfg(test)]
mod norm_book;
#[cfg(test)]
mod residue;
#[cfg(test)]
mod sentences;
#[cfg(test)]
mod syntax;
#[cfg(test)]
mod types;
