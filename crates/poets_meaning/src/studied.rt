//! Books that were studied.
ghost use Rattle.std.specs.Prelude.{◌≡◌, map, option_map, IfOk, IfSome};
ghost use Rattle.std.specs.List.{IsDistinct};
ghost use Rattle.poets_expr.specs.Env.{same_name};
ghost use Rattle.poets_syntax.specs.Book.{template_of, book_of};
ghost use Rattle.poets_syntax.specs.Contract.{contract_of};
ghost use Rattle.poets_meaning.specs.InStudied.{found_with, template_named, wide_in};
ghost use Rattle.poets_meaning.specs.Studied.{IsStudiedBook, marks_of};

use indexmap::IndexSet;
use poets_syntax::{Book, Template};
use poets_value::{List, Memory, Name};
use std::alloc::Global;
use std::marker::Model;

/// What is known of a template's body.
#[derive(Debug, Clone, Copy, PartialEq, Eq)]
pub struct Mark {
    /// The empty trace performs it.
    pub nullable: bool,
    /// Some number of granted steps performs it.
    pub hopeful: bool,
    /// Its width, cut at one more than the greatest spread.
    pub wide: u64,
}

/// A checked and guarded book, with the mark of each template at the template's place.
#[derive(Debug, Drop)]
pub struct Studied {
    book: Book,
    marks: List<Mark>,
    // The templates' names, each at its template's place.
    names: IndexSet<Name>,
}

impl Model for Studied {
    ghost use Rattle.poets_meaning.specs.Studied.{StudiedBook};

    ghost Value = { StudiedBook };

    ghost use Rattle.poets_syntax.specs.contracts.term.Book as b;
    ghost use Rattle.std.specs.Coded.{codes};

    ghost coded = { Prim.hlevel (codes, b.the_row.coded) };

    ghost use Rattle.std.specs.Prelude.{◌≡◌, map};
    ghost use Rattle.poets_syntax.specs.Book.{book_of};
    ghost use Rattle.poets_meaning.specs.Studied.{IsStudiedBook};

    ghost view = { λ s. record { book = s.book; marks = s.marks.items } };

    ghost invariant = { λ s. IsStudiedBook (book_of s.book) s.marks.items
        × (s.names.keys ≡ map (λ t. t.name) s.book.templates.items) };
}

// The names of templates, of which no two have one, in the templates' order.
fn names_of(alloc: Global, templates: &[Template]) -> Result<IndexSet<Name>, Memory>
    requires { IsDistinct same_name (map (λ t. t.name) templates.now) }
    ensures { IfOk result (λ names. names.keys ≡ map (λ t. t.name) templates.now) }
{
    let mut names = IndexSet::new(alloc);
    for template in templates {
        names.insert(template.name)?;
    }
    Ok(names)
}

impl Studied {
    /// The book with its marks, in the templates' order: the book is checked and guarded, and the marks are right.
    pub fn of(alloc: Global, book: Book, marks: List<Mark>) -> Result<Studied, Memory>
        requires { IsStudiedBook (book_of book) marks.items }
        ensures book { IfOk result (λ s. s.book ≡ book) }
        ensures marks { IfOk result (λ s. s.marks ≡ marks.items) }
    {
        let names = names_of(alloc, book.templates.as_slice())?;
        Ok(Studied { book, marks, names })
    }

    /// The book.
    pub fn book(&self) -> &Book
        ensures book { result.now ≡ self.now.book }
        ensures studied { IsStudiedBook (book_of self.now.book) self.now.marks }
    {
        &self.book
    }

    /// Recalls that the book is checked and guarded, and that the marks are right. It does nothing else.
    pub fn recall(&self)
        ensures { IsStudiedBook (book_of self.now.book) self.now.marks }
    {
        // The use of a field tells the checker what is true of each studied book.
        let _ = &self.book;
    }

    /// The marks of the templates, in the templates' order.
    pub fn marks(&self) -> &[Mark]
        ensures marks { result.now ≡ self.now.marks }
        ensures studied { IsStudiedBook (book_of self.now.book) self.now.marks }
    {
        self.marks.as_slice()
    }

    /// The template of that name, and its mark.
    pub fn template(&self, name: Name) -> Option<(&Template, &Mark)>
        ensures template { option_map (λ p. template_of p.0.now) result ≡ template_named self.now name }
        ensures nullable { found_with (λ m. m.nullable) result ≡ (marks_of self.now).nullable name }
        ensures hopeful { found_with (λ m. m.hopeful) result ≡ (marks_of self.now).hopeful name }
        ensures wide { IfSome result (λ p. p.1.now.wide ≡ wide_in self.now (contract_of p.0.now.body)) }
    {
        let place = self.names.get_index_of(&name)?;
        let templates = self.book.templates.as_slice();
        let marks = self.marks.as_slice();
        Some((&templates[place], &marks[place]))
    }
}
