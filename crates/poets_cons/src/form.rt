//! What is known of a row at once.
ghost use Rattle.std.specs.Prelude.{◌≡◌, ◌+◌, ◌<◌, length, slice_get, Some};
ghost use Rattle.poets_cons.specs.Row.{row_of, AreBelow};
ghost use Rattle.poets_cons.specs.code.Forms.{IsFormOf, cut, single_form, joined_form, both_forms};

use crate::node::Node;

/// What is known of a row without a look at what it reaches.
#[derive(Clone, Copy)]
pub(crate) struct Form {
    /// A number that it shares with rows alike to it, cut at the greatest `u32`.
    pub weight: u32,
    /// It is no `||`.
    pub single: bool,
    /// A `||` stands in it.
    pub parallel: bool,
    /// Its parallel parts are grouped to the left.
    pub grouped: bool,
}

// A row that is no `||`.
fn single(weight: u32, parallel: bool) -> Form
    ensures { result ≡ single_form weight parallel }
{
    Form {
        weight,
        single: true,
        parallel,
        grouped: true,
    }
}

// One more, cut at the greatest `u32`.
fn next(weight: u32) -> u32
    ensures { result ≡ cut (1 + weight) }
{
    weight.saturating_add(1)
}

// The weight of a row that has two parts.
fn above_both(first: Form, second: Form) -> u32
    ensures { result ≡ cut (1 + first.weight + second.weight) }
{
    next(first.weight).saturating_add(second.weight)
}

// A row after an event.
fn after(then: Form) -> Form
    ensures { result ≡ single_form (cut (1 + then.weight)) then.parallel }
{
    single(next(then.weight), then.parallel)
}

// Two rows joined by `+` or `;`.
fn joined(first: Form, second: Form) -> Form
    ensures { result ≡ joined_form first second }
{
    single(above_both(first, second), first.parallel || second.parallel)
}

// A row beside another.
fn beside(first: Form, second: Form) -> Form
    ensures { result ≡ both_forms first second }
{
    Form {
        weight: above_both(first, second),
        single: false,
        parallel: true,
        grouped: first.grouped && second.single,
    }
}

/// The form of the row with that number.
pub(crate) fn form_at(forms: &[Form], place: usize) -> Form
    requires { place < length forms.now }
    ensures { slice_get forms.now place ≡ Some result }
{
    forms[place]
}

/// The form of a node, from those of a table's rows.
pub(crate) fn form_of(forms: &[Form], node: &Node) -> Form
    requires { AreBelow (length forms.now) (row_of node.now) }
    ensures { IsFormOf forms.now node.now result }
{
    match node {
        Node::Success | Node::Failure => single(1, false),
        Node::Transmit { then, .. } => after(form_at(forms, *then)),
        Node::Plus(a, b) => joined(form_at(forms, *a), form_at(forms, *b)),
        Node::Seq(a, b) => joined(form_at(forms, *a), form_at(forms, *b)),
        Node::Par(a, b) => beside(form_at(forms, *a), form_at(forms, *b)),
        Node::App { name, .. } => single(next(name.id), false),
    }
}
