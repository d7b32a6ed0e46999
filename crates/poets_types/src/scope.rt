//! Names in scope.
ghost use Rattle.std.specs.Prelude.{◌≡◌, None};
ghost use Rattle.poets_expr.specs.Env.{declared_of};
ghost use Rattle.poets_syntax.specs.TypeOf.{type_in};
ghost use Rattle.poets_syntax.specs.Typed.{scope_of};
ghost use Rattle.poets_types.specs.code.Scopes.{names_in};

use crate::params::Params;
use poets_expr::Decls;
use poets_syntax::Param;
use poets_value::{Name, Ty};

// Names in scope with their types, list by list, the innermost list first. A scope is lent again, as `&*scope`,
// where it becomes the outer part of another, which lives shorter.
#[derive(Drop)]
pub(crate) enum Scope<'a> {
    Empty,
    Params(&'a Params<'a>),
    Inner(&'a [Param], &'a Scope<'a>),
}

// The type of the first that has the name.
fn first_type(names: &[Param], name: Name) -> Option<Ty>
    ensures { result ≡ type_in (λ _. None) (scope_of names.now) name }
{
    for param in names {
        if param.name == name {
            return Some(param.ty);
        }
    }
    None
}

impl Scope<'_> {
    // The type of a name: that of its innermost binder, else that of its declaration.
    #[tactic(auto, using(crate::proofs::Scopes::type_in_append, crate::proofs::Scopes::type_in_alone))]
    pub(crate) fn type_of(&self, decls: &Decls, name: Name) -> Option<Ty>
        ensures { result ≡ type_in (declared_of decls.now.names) (names_in self.now) name }
    {
        match self {
            Scope::Empty => decls.names.get(&name).copied(),
            Scope::Params(params) => match params.type_of(name) {
                Some(ty) => Some(ty),
                None => decls.names.get(&name).copied(),
            },
            Scope::Inner(names, outer) => match first_type(names, name) {
                Some(ty) => Some(ty),
                None => outer.type_of(decls, name),
            },
        }
    }
}
