//! Classes of rows: two rows have one class exactly where their contracts are alike.
ghost use Rattle.std.specs.Prelude.{◌≡◌, ◌↔◌, ◌<◌, [], length, map, IfOk, IsTrue, None, ℕ};
ghost use Rattle.poets_cons.specs.Notes.{noted};
ghost use Rattle.poets_cons.specs.Table.{contract_at, AreAlikeAt, IsTable};
ghost use Rattle.poets_cons.specs.code.Classes.{shape_of, shapes_of, AreKnown, AreShapes, HasClass};
ghost use Rattle.poets_cons.specs.code.Classes.{IsBagOfClass, IsBagOfClasses, IsShapeOf};
ghost use Rattle.poets_cons.specs.code.Bags.{AreBags, IsLonger};

use crate::arena::node_at;
use crate::bag::{Bag, join, unit};
use crate::node::Node;
use crate::notes::Notes;
use crate::shape::Shape;
use indexmap::IndexSet;
use poets_value::Memory;
use std::alloc::Global;
use std::sync::Arc;

/// The classes of the rows that were asked for, each with its shape.
#[derive(Drop)]
pub(crate) struct Classes {
    // Those that shapes name.
    bags: IndexSet<Bag>,
    shapes: IndexSet<Shape>,
    classes: Notes,
}

impl Classes {
    /// No row has a class yet.
    pub(crate) fn new(alloc: Global) -> Classes
        ensures bags { result.bags.keys ≡ [] }
        ensures shapes { result.shapes.keys ≡ [] }
        ensures classes { (k : ℕ) → noted result.classes k ≡ None }
    {
        Classes {
            bags: IndexSet::new(alloc),
            shapes: IndexSet::new(alloc),
            classes: Notes::new(alloc),
        }
    }
}

// The bag of the parallel parts of a class.
fn bag_of_class(
    bags: &mut IndexSet<Bag>,
    shapes: &IndexSet<Shape>,
    class: usize,
) -> Result<usize, Memory>
    requires bags { AreBags bags.old.keys }
    requires shapes { AreShapes (map (shape_of bags.old.keys) shapes.now.keys) }
    requires class { class < length shapes.now.keys }
    ensures bags { AreBags bags.new.keys }
    ensures grows { IsLonger bags.old.keys bags.new.keys }
    ensures bag { IfOk result (IsBagOfClass bags.old.keys bags.new.keys shapes.now.keys class) }
{
    match shapes.get_index(class) {
        Some(Shape::Single(_)) => unit(bags, class),
        Some(Shape::Parallel(bag)) => Ok(*bag),
        None => unreachable!(),
    }
}

// The bag of the parallel parts of two classes.
fn bag_of_both(
    bags: &mut IndexSet<Bag>,
    shapes: &IndexSet<Shape>,
    a: usize,
    b: usize,
) -> Result<usize, Memory>
    requires bags { AreBags bags.old.keys }
    requires shapes { AreShapes (map (shape_of bags.old.keys) shapes.now.keys) }
    requires first { a < length shapes.now.keys }
    requires second { b < length shapes.now.keys }
    ensures bags { AreBags bags.new.keys }
    ensures grows { IsLonger bags.old.keys bags.new.keys }
    ensures bag { IfOk result (IsBagOfClasses bags.old.keys bags.new.keys shapes.now.keys a b) }
{
    let first = bag_of_class(bags, shapes, a)?;
    let second = bag_of_class(bags, shapes, b)?;
    join(bags, first, second)
}

/// Whether two rows have one class: whether their contracts are the same but for the order of parallel parts.
pub(crate) fn same_class(
    alloc: Global,
    nodes: &[Node],
    known: &mut Classes,
    a: usize,
    b: usize,
) -> Result<bool, Memory>
    requires table { IsTable nodes.now }
    requires first { a < length nodes.now }
    requires second { b < length nodes.now }
    requires known { AreKnown nodes.now known.old }
    ensures known { AreKnown nodes.now known.new }
    ensures alike { IfOk result (λ r. IsTrue r ↔ AreAlikeAt nodes.now a b) }
{
    let class = class_of(alloc, nodes, known, a)?;
    let other = class_of(alloc, nodes, known, b)?;
    Ok(class == other)
}

// The class of a row, which is found once.
#[cycle(class_of)]
fn class_of(
    alloc: Global,
    nodes: &[Node],
    known: &mut Classes,
    place: usize,
) -> Result<usize, Memory>
    requires table { IsTable nodes.now }
    requires within { place < length nodes.now }
    requires known { AreKnown nodes.now known.old }
    ensures known { AreKnown nodes.now known.new }
    ensures bags { IsLonger known.old.bags.keys known.new.bags.keys }
    ensures shapes { IsLonger (shapes_of known.old) (shapes_of known.new) }
    ensures class { IfOk result (HasClass (shapes_of known.new) (contract_at nodes.now place)) }
{
    if let Some(class) = known.classes.get(place) {
        return Ok(class);
    }
    let shape = shape_of(alloc, nodes, known, place)?;
    let Ok((class, _)) = known.shapes.insert_full(shape) else {
        return Err(Memory);
    };
    known.classes.note(place, class)
}

// The shape of a row.
#[cycle(class_of)]
fn shape_of(
    alloc: Global,
    nodes: &[Node],
    known: &mut Classes,
    place: usize,
) -> Result<Shape, Memory>
    requires table { IsTable nodes.now }
    requires within { place < length nodes.now }
    requires known { AreKnown nodes.now known.old }
    ensures known { AreKnown nodes.now known.new }
    ensures bags { IsLonger known.old.bags.keys known.new.bags.keys }
    ensures shapes { IsLonger (shapes_of known.old) (shapes_of known.new) }
    ensures shape { IfOk result (IsShapeOf nodes.now known.new place) }
{
    match node_at(nodes, place) {
        Node::Success => Ok(Shape::Single(Node::Success)),
        Node::Failure => Ok(Shape::Single(Node::Failure)),
        Node::Transmit {
            binders,
            when,
            then,
        } => {
            let then = class_of(alloc, nodes, known, *then)?;
            let when = Arc::try_clone(when)?;
            Ok(Shape::Single(Node::Transmit {
                binders: *binders,
                when,
                then,
            }))
        }
        Node::Plus(a, b) => {
            let a = class_of(alloc, nodes, known, *a)?;
            let b = class_of(alloc, nodes, known, *b)?;
            Ok(Shape::Single(Node::Plus(a, b)))
        }
        Node::Par(a, b) => {
            let a = class_of(alloc, nodes, known, *a)?;
            let b = class_of(alloc, nodes, known, *b)?;
            let bag = bag_of_both(&mut known.bags, &known.shapes, a, b)?;
            Ok(Shape::Parallel(bag))
        }
        Node::Seq(a, b) => {
            let a = class_of(alloc, nodes, known, *a)?;
            let b = class_of(alloc, nodes, known, *b)?;
            Ok(Shape::Single(Node::Seq(a, b)))
        }
        Node::App { name, args } => {
            let args = Arc::try_clone(args)?;
            Ok(Shape::Single(Node::App { name: *name, args }))
        }
    }
}
