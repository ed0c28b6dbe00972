//! Answers the fields of rows.

use crate::{areas, made};
use conformance_rows::grammar::Maker;
use conformance_rows::{Field, Found, Output, Subject, keys};
use kube_cel::cel::PatternBook;
use std::alloc::Global;

/// The state of a row: one book of patterns, shared by all its fields.
#[derive(Drop)]
pub(crate) struct Rows {
    book: PatternBook,
}

impl Rows {
    /// Returns the state before the first row.
    pub(crate) fn new(alloc: Global) -> Rows {
        Rows {
            book: PatternBook::new(alloc),
        }
    }
}

impl Subject for Rows {
    fn begin(&mut self, alloc: Global) {
        self.book = PatternBook::new(alloc);
    }

    fn gives(&self, key: &str) -> bool {
        keys::gives(key)
    }

    fn find(&mut self, alloc: Global, given: &[Field], field: &Field, found: &mut Found) {
        areas::find(alloc, given, field, &mut self.book, found);
    }

    fn generate(
        &mut self,
        alloc: Global,
        maker: &mut Maker,
        found: &mut Found,
        report: &mut Output,
    ) {
        made::run(alloc, maker, found, report);
    }
}
