//! The widths of the templates' bodies, and their marks.
ghost use Rattle.std.specs.Prelude.{◌≡◌, IfOk, IfSome, IsSome, Ok, None};
ghost use Rattle.poets_guard.specs.code.Walks.{HasCycle, HasWidth, HaveWidths, AllReach, HaveSameNames};
ghost use Rattle.poets_guard.specs.code.Marked.{AreMarksIfAny};

use crate::graph::{Graph, add};
use poets_meaning::Mark;
use poets_syntax::Book;
use poets_value::{List, Memory, Name, push};
use std::alloc::Global;
use std::collections::{BTreeMap, BTreeSet};

// The width of the body of a template, cut, or `None` where a walk from it meets a cycle.
// The path has the templates on the way to it, and the widths those that are known.
fn width(
    graph: &Graph,
    name: Name,
    path: &mut BTreeSet<Name>,
    widths: &mut BTreeMap<Name, u64>,
) -> Result<Option<u64>, Memory>
    requires path { AllReach graph.now path.old name }
    requires widths { HaveWidths graph.now widths.old }
    ensures width { IfOk result (λ found. IfSome found (HasWidth graph.now name)) }
    ensures cycle { result ≡ Ok None → HasCycle graph.now }
    ensures path { IfOk result (λ found. IsSome found → HaveSameNames path.old path.new) }
    ensures widths { IfOk result (λ found. IsSome found → HaveWidths graph.now widths.new) }
{
    if let Some(known) = widths.get(&name) {
        return Ok(Some(*known));
    }
    let Some(node) = graph.get(&name) else {
        return Ok(Some(0));
    };
    if !path.insert(name)? {
        return Ok(None);
    }
    let mut exposed = 0;
    for next in node.exposed.as_slice() {
        let Some(more) = width(graph, *next, path, widths)? else {
            return Ok(None);
        };
        exposed = add(exposed, more);
    }
    let wide = add(node.own, exposed);
    path.remove(&name);
    widths.insert(name, wide)?;
    Ok(Some(wide))
}

/// The marks of the templates, in their order, or `None` where there is a cycle.
pub(crate) fn marks(
    alloc: Global,
    book: &Book,
    nullable: &BTreeSet<Name>,
    hopeful: &BTreeSet<Name>,
    graph: &Graph,
) -> Result<Option<List<Mark>>, Memory>
    ensures marks { IfOk result (AreMarksIfAny book.now nullable.now hopeful.now graph.now) }
    ensures cycle { result ≡ Ok None → HasCycle graph.now }
{
    let mut path = BTreeSet::new(alloc);
    let mut widths = BTreeMap::new(alloc);
    let mut marks = List::new(alloc);
    for template in book.templates.as_slice() {
        let Some(wide) = width(graph, template.name, &mut path, &mut widths)? else {
            return Ok(None);
        };
        let mark = Mark {
            nullable: nullable.contains(&template.name),
            hopeful: hopeful.contains(&template.name),
            wide,
        };
        push(&mut marks, mark)?;
    }
    Ok(Some(marks))
}
