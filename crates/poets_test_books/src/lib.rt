//! Texts of books and values, and documents of histories, that are built by hand.
#![tactic(auto)]

#[cfg(test)]
mod books;
#[cfg(test)]
mod documents;
#[cfg(test)]
mod values;
