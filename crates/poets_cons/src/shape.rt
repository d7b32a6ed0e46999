//! Nodes whose parts are classes, and of parallel parts how many have each class.

use crate::node::Node;

/// A contract by the classes of its parts.
#[derive(PartialEq, Eq, Hash, Drop)]
pub(crate) enum Shape {
    /// A form other than `||`. The numbers of its node are classes.
    Single(Node),
    /// The number of the bag of parallel parts.
    Parallel(usize),
}
