//! The first cycle of the graph.
ghost use Rattle.std.specs.Prelude.{◌≡◌, IfOk, Ok, true, false};
ghost use Rattle.std.specs.BTreeSet.{contains};
ghost use Rattle.poets_value.specs.Names.{name_cmp};
ghost use Rattle.poets_guard.specs.code.Graph.{HasEdge};
ghost use Rattle.poets_guard.specs.code.Walks.{HasCycle, IsCycleFrom, IsFirstCycleIn};
ghost use Rattle.poets_guard.specs.FirstCycle.{LiesOnCycle};
ghost use Rattle.poets_guard.specs.code.Searched.{HaveNodes, IsSearched, LeadsOn, HasNodesOf};

use crate::graph::Graph;
use crate::visits::names_on_cycles;
use poets_syntax::Book;
use poets_value::{List, Memory, Name, push};
use std::alloc::Global;
use std::collections::BTreeSet;

// Leads the path on from a name to the goal. Says whether there is a way over names that were not seen.
fn lead(
    graph: &Graph,
    goal: Name,
    from: Name,
    seen: &mut BTreeSet<Name>,
    path: &mut List<Name>,
) -> Result<bool, Memory>
    requires { HaveNodes graph.now seen.old }
    ensures led { result ≡ Ok true → LeadsOn graph.now goal from path.old.items path.new.items }
    ensures back { result ≡ Ok false → path.new.items ≡ path.old.items }
    ensures searched { result ≡ Ok false → IsSearched graph.now goal from seen.old seen.new }
{
    let Some(node) = graph.get(&from) else {
        return Ok(false);
    };
    if !seen.insert(from)? {
        return Ok(false);
    }
    push(path, from)?;
    for next in node.exposed.as_slice() {
        if *next == goal || lead(graph, goal, *next, seen, path)? {
            return Ok(true);
        }
    }
    path.pop();
    Ok(false)
}

// The cycle on which a name lies, from the name on.
fn cycle_from(alloc: Global, graph: &Graph, name: Name) -> Result<List<Name>, Memory>
    requires { LiesOnCycle (HasEdge graph.now) name }
    ensures { IfOk result (λ cycle. IsCycleFrom graph.now name cycle.items) }
{
    let mut seen = BTreeSet::new(alloc);
    let mut path = List::new(alloc);
    if !lead(graph, name, name, &mut seen, &mut path)? {
        unreachable!();
    }
    Ok(path)
}

/// The cycle that begins with the first template that lies on one.
pub(crate) fn first_cycle(alloc: Global, book: &Book, graph: &Graph) -> Result<List<Name>, Memory>
    requires cycle { HasCycle graph.now }
    requires names { HasNodesOf graph.now book.now.templates.items }
    ensures { IfOk result (λ cycle. IsFirstCycleIn graph.now book.now.templates.items cycle.items) }
{
    let on_cycles = names_on_cycles(alloc, book, graph)?;
    for template in book.templates.as_slice() {
        if on_cycles.contains(&template.name) {
            return cycle_from(alloc, graph, template.name);
        }
    }
    unreachable!()
}
