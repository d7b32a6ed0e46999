//! Parameters by their names.
ghost use Rattle.std.specs.Prelude.{◌≡◌, None};
ghost use Rattle.std.specs.BTreeMap.{get};
ghost use Rattle.poets_value.specs.declared.value.Name.{Name};
ghost use Rattle.poets_value.specs.Names.{name_cmp};
ghost use Rattle.poets_syntax.specs.TypeOf.{type_in};
ghost use Rattle.poets_syntax.specs.Typed.{scope_of};

use crate::TypeCause;
use crate::index::Index;
use crate::table::enter;
use poets_syntax::Param;
use poets_value::{Name, Ty};
use std::alloc::Global;
use std::collections::BTreeMap;

// Parameters, with the type of each name.
#[derive(Drop)]
pub(crate) struct Params<'a> {
    pub(crate) list: &'a [Param],
    types: BTreeMap<Name, Ty>,
    ghost each_type: { (x : Name) → get name_cmp types x ≡ type_in (λ _. None) (scope_of list.now) x },
}

impl<'a> Params<'a> {
    ghost use Rattle.std.specs.Prelude.{IfOk, IfErr};
    ghost use Rattle.poets_syntax.specs.TypeOf.{Passes};
    ghost use Rattle.poets_types.specs.code.Answers.{IsToldBy};
    ghost use Rattle.poets_types.specs.code.Checks.{params_verdict};

    // The parameters, if none of their names is in use, and none stands twice.
    pub(crate) fn new(
        alloc: Global,
        index: &Index,
        list: &'a [Param],
    ) -> Result<Params<'a>, TypeCause>
        ensures list { IfOk result (λ params. params.list.now ≡ list.now) }
        ensures passes { IfOk result (λ _. params_verdict index.now list.now ≡ Passes tt) }
        ensures fault { IfErr result (IsToldBy (params_verdict index.now list.now)) }
    {
        let mut types = BTreeMap::new(alloc);
        for param in list {
            if index.is_used(param.name) {
                return Err(TypeCause::Twice { name: param.name });
            }
            if !enter(&mut types, param.name, param.ty)? {
                return Err(TypeCause::Twice { name: param.name });
            }
        }
        Ok(Params { list, types })
    }

    // The type of the parameter of that name.
    pub(crate) fn type_of(&self, name: Name) -> Option<Ty>
        ensures { result ≡ type_in (λ _. None) (scope_of self.now.list.now) name }
    {
        self.types.get(&name).copied()
    }
}
