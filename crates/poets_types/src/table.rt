//! Tables and sets of names.
ghost use Rattle.std.specs.Prelude.{◌≡◌, not, is_some, IfOk};
ghost use Rattle.std.specs.BTreeMap.{get};
ghost use Rattle.std.specs.BTreeSet.{contains};
ghost use Rattle.poets_value.specs.Names.{name_cmp};
ghost use Rattle.poets_expr.specs.Env.{same_name};
ghost use Rattle.poets_types.specs.code.Tables.{AreAdded, AreEntered, only};

use poets_value::{Memory, Name};
use std::collections::{BTreeMap, BTreeSet};

// Enters a value for the name, if it has none, and tells whether it had none.
pub(crate) fn enter<V: Drop>(
    table: &mut BTreeMap<Name, V>,
    name: Name,
    value: V,
) -> Result<bool, Memory>
    ensures new { IfOk result (λ new. new ≡ not (is_some (get name_cmp table.old name))) }
    ensures names { IfOk result (λ _. AreEntered (only name value) table.old table.new) }
{
    if table.contains_key(&name) {
        return Ok(false);
    }
    table.insert(name, value)?;
    Ok(true)
}

// Adds the name, and tells whether it is new.
#[tactic(auto, using(crate::proofs::Tables::same_is_eq))]
pub(crate) fn add(names: &mut BTreeSet<Name>, name: Name) -> Result<bool, Memory>
    ensures new { IfOk result (λ new. new ≡ not (contains name_cmp names.old name)) }
    ensures names { IfOk result (λ _. AreAdded (λ x. same_name x name) names.old names.new) }
{
    Ok(names.insert(name)?)
}
