//! Documents of histories, read back by the public functions of `poets_import`.
#![tactic(auto)]

#[cfg(test)]
mod books;
#[cfg(test)]
mod documents;
#[cfg(test)]
mod entries;
#[cfg(test)]
mod examples;
#[cfg(test)]
mod hostile;
#[cfg(test)]
mod names;
#[cfg(test)]
mod replies;
#[cfg(test)]
mod values;
