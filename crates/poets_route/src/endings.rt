//! Ways of the empty trace.
ghost use Rattle.std.specs.Prelude.{◌≡◌, true};
ghost use Rattle.poets_syntax.specs.Contract.{contract_of};
ghost use Rattle.poets_meaning.specs.InStudied.{nullable_in};
ghost use Rattle.poets_route.specs.code.Making.{Gives};
ghost use Rattle.poets_route.specs.code.Undone.{EndsIn, IsFormedIn};

use poets_meaning::Studied;
use poets_residue::may_end;
use poets_syntax::Term;
use poets_value::Memory;
use poets_way::Trails;

/// A way in which the empty trace performs a contract that may end.
pub(crate) fn ended(studied: &Studied, term: &Term, trails: &mut Trails) -> Result<usize, Memory>
    requires formed { IsFormedIn studied.now (contract_of term.now) }
    requires ends { nullable_in studied.now (contract_of term.now) ≡ true }
    ensures { Gives trails.old trails.new result (EndsIn studied.now (contract_of term.now)) }
{
    match term {
        Term::Success => trails.nothing(),
        Term::Failure | Term::Transmit { .. } => unreachable!(),
        Term::Plus(a, b) => {
            if may_end(studied, a) {
                let part = ended(studied, a, trails)?;
                return trails.left(part);
            }
            let part = ended(studied, b, trails)?;
            trails.right(part)
        }
        Term::Par(a, b) => {
            let first = ended(studied, a, trails)?;
            let second = ended(studied, b, trails)?;
            let none = trails.no_sides();
            trails.both(none, first, second)
        }
        Term::Seq(a, b) => {
            let first = ended(studied, a, trails)?;
            let second = ended(studied, b, trails)?;
            trails.then(0, first, second)
        }
        Term::App { name, .. } => {
            let Some((template, _)) = studied.template(*name) else {
                unreachable!();
            };
            let part = ended(studied, &template.body, trails)?;
            trails.enter(part)
        }
    }
}
