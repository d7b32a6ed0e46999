//! Which names of the graph lie on cycles, by Tarjan's search for strongly connected components.
ghost use Rattle.std.specs.Prelude.{◌≡◌, ◌↔◌, ◌≤◌, IfOk, OnOk, IsTrue};
ghost use Rattle.poets_guard.specs.code.Searched.{HasNodesOf};
ghost use Rattle.poets_guard.specs.code.Visited.{IsOpenAt, IsOnCycle, AddsOnlyIf, AllLead, AreRight, IsVisited};
ghost use Rattle.poets_guard.specs.code.Walks.{AreOnCycles};

use crate::endings::insert_if;
use crate::graph::Graph;
use poets_syntax::Book;
use poets_value::{Memory, Name};
use std::alloc::Global;
use std::collections::{BTreeMap, BTreeSet};

// The names that were visited, each with its height on the stack.
// A name is open while it stands there. Those from a height on are taken off once none of them leads to one below.
#[derive(Drop)]
struct Visits {
    heights: BTreeMap<Name, usize>,
    stack: Vec<Name>,
    on_cycles: BTreeSet<Name>,
}

impl Visits {
    // Whether the name is open at this height.
    fn is_open(&self, name: Name, height: usize) -> bool
        ensures { IsTrue result ↔ IsOpenAt self.now height name }
    {
        match self.stack.get(height) {
            Some(other) => *other == name,
            None => false,
        }
    }

    // Notes that the name at this height lies on a cycle, if it leads to an open name there or below.
    fn note(&mut self, name: Name, height: usize, least: usize) -> Result<(), Memory>
        ensures heights { self.new.heights ≡ self.old.heights }
        ensures stack { self.new.stack ≡ self.old.stack }
        ensures on_cycle { OnOk result (least ≤ height → IsOnCycle self.new name) }
        ensures others { OnOk result (AddsOnlyIf (least ≤ height) name self.old self.new) }
        ensures still { OnOk result ((f : Name) → IsOnCycle self.old f → IsOnCycle self.new f) }
    {
        insert_if(least <= height, &mut self.on_cycles, name)
    }

    // Visits a name to which all open names lead, and all that it leads to.
    // Gives the least height of a name that was open before and to which an edge leads from those, or how many were open.
    fn visit(&mut self, graph: &Graph, name: Name) -> Result<usize, Memory>
        requires right { AreRight graph.now self.old }
        requires lead { AllLead graph.now self.old name }
        ensures { IfOk result (λ least. IsVisited graph.now name least self.old self.new) }
    {
        let height = self.stack.len();
        let Some(node) = graph.get(&name) else {
            return Ok(height);
        };
        if let Some(known) = self.heights.get(&name) {
            return Ok(if self.is_open(name, *known) {
                *known
            } else {
                height
            });
        }
        self.heights.insert(name, height)?;
        self.stack.push(name)?;
        let mut least = height + 1;
        for next in node.exposed.as_slice() {
            least = least.min(self.visit(graph, *next)?);
        }
        self.note(name, height, least)?;
        if least < height {
            return Ok(least);
        }
        self.stack.truncate(height);
        Ok(height)
    }
}

/// The names that lie on cycles.
pub(crate) fn names_on_cycles(
    alloc: Global,
    book: &Book,
    graph: &Graph,
) -> Result<BTreeSet<Name>, Memory>
    requires { HasNodesOf graph.now book.now.templates.items }
    ensures { IfOk result (AreOnCycles graph.now) }
{
    let mut visits = Visits {
        heights: BTreeMap::new(alloc),
        stack: Vec::new(alloc),
        on_cycles: BTreeSet::new(alloc),
    };
    for template in book.templates.as_slice() {
        visits.visit(graph, template.name)?;
    }
    Ok(visits.on_cycles)
}
