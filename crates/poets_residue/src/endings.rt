//! Contracts that may end.
ghost use Rattle.std.specs.Prelude.{◌≡◌, ◌↔◌, IsTrue, []};
ghost use Rattle.poets_syntax.specs.Book.{book_of};
ghost use Rattle.poets_syntax.specs.Contract.{contract_of};
ghost use Rattle.poets_meaning.specs.InStudied.{nullable_in, CountsFitIn};
ghost use Rattle.poets_meaning.specs.Perf.{Perf};
ghost use Rattle.poets_meaning.specs.Studied.{marks_of};

use poets_meaning::Studied;
use poets_syntax::Term;
use poets_value::Name;

/// Whether the empty trace performs the contract.
pub fn may_end(studied: &Studied, term: &Term) -> bool
    requires { CountsFitIn studied.now (contract_of term.now) }
    ensures { IsTrue result ↔ Perf (book_of studied.now.book) [] (contract_of term.now) [] }
{
    studied.recall();
    nullable(studied, term)
}

// Whether the mark of the template says that its body may end.
pub(crate) fn is_marked(studied: &Studied, name: Name) -> bool
    ensures { result ≡ (marks_of studied.now).nullable name }
{
    studied
        .template(name)
        .is_some_and(|(_, mark)| mark.nullable)
}

// Whether the forms of the contract and the marks of its templates let it end.
pub(crate) fn nullable(studied: &Studied, term: &Term) -> bool
    ensures { result ≡ nullable_in studied.now (contract_of term.now) }
{
    match term {
        Term::Success => true,
        Term::Failure | Term::Transmit { .. } => false,
        Term::Plus(a, b) => nullable(studied, a) || nullable(studied, b),
        Term::Par(a, b) | Term::Seq(a, b) => nullable(studied, a) && nullable(studied, b),
        Term::App { name, .. } => is_marked(studied, *name),
    }
}
