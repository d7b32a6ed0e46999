//! What a call keeps until its reply is asked for.
ghost use Rattle.std.specs.Prelude.{◌≡◌, length, IfOk};
ghost use Rattle.std.specs.Arc.{arc_value};
ghost use Rattle.poets_folio.specs.Rows.{HasTotalOf};
ghost use Rattle.poets_engine.specs.code.Folios.{HasRowsOfShared};

use poets_command::{Folio, Reply};
use poets_expr::Decls;
use poets_folio::{Part, portfolio};
use poets_report::Report;
use poets_value::{List, Memory, Value};
use std::alloc::Global;
use std::sync::Arc;
use std::thread::Threads;

/// All that a portfolio is made of. The declared names, the report and the sealed pieces of the events are shared.
#[derive(Drop)]
pub struct FolioWork {
    pub decls: Arc<Decls>,
    pub report: Arc<Report>,
    /// The values of the arguments.
    pub args: List<Option<Value>>,
    pub parts: List<Part>,
    /// There are as many arguments as parameters.
    pub ghost counts: { length args.items ≡ length (arc_value report).params.items },
}

impl FolioWork {
    /// The portfolio, its rows made in parallel.
    pub(crate) fn finish<R: Threads + Sync>(self, rt: &R, alloc: Global) -> Result<Folio, Memory>
        ensures rows { IfOk result (HasRowsOfShared self.decls self.report self.args self.parts) }
        ensures total { IfOk result (HasTotalOf (arc_value self.report)) }
    {
        portfolio(
            rt,
            alloc,
            &self.decls,
            &self.report,
            &self.args,
            &self.parts,
        )
    }
}

/// How far the reply to a call is made.
#[derive(Drop)]
pub enum Body {
    /// The reply is made.
    Done(Reply),
    /// The rows of a portfolio are still to be made.
    Folio(FolioWork),
}

/// The place of a call in the history, counted from 0, and its reply as far as it is made.
#[derive(Drop)]
pub struct Kept {
    pub place: u64,
    pub body: Body,
}
