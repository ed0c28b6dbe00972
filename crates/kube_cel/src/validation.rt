//! Validation of an object by the rules of its schema.
ghost use Rattle.cel.specs.Book.{Extends, Book};
ghost use Rattle.cel.specs.Entries.{entries_of};
ghost use Rattle.kube_cel.specs.Answers.{found_in, report_of, answer_view, IsReportOf};
ghost use Rattle.kube_cel.specs.Raw.{raw_accessors};
ghost use Rattle.kube_cel.specs.Compiled.{compiled_accessors};
ghost use Rattle.kube_cel.specs.FilledStart.{filled_start};
ghost use Rattle.kube_cel.specs.Starts.{compiled_start, call_start, source_start};
ghost use Rattle.kube_cel_walk.specs.Answers.{answer, IsAnswer};
ghost use Rattle.kube_schema.specs.Shown.{whole};
ghost use Rattle.kube_schema.specs.View.{view_of};
ghost use Rattle.serde_json.specs.Data.{Data};
ghost use Rattle.std.specs.Prelude.{◌≡◌, IfOk, None};

use crate::compiled::CompiledNode;
use crate::errors::validation_of;
use cel::PatternBook;
use kube_cel_walk::{RootContext, ValidationErrors};
use kube_schema::{
    CompiledSchema, NodeKeywords, compile_on_demand, compile_reached, filled_by_node,
};
use kube_types::Refused;
use serde_json::Value;
use std::alloc::Global;

/// Validates objects by the CEL rules of their schemas
/// (`x-kubernetes-validations`). It keeps no state between calls.
#[derive(Clone, Copy, Debug, Default, PartialEq, Eq)]
pub struct Validator;

impl Validator {
    /// Returns the validator. The type has a single value, so no contract
    /// needs to distinguish one from another. Allocates nothing.
    pub fn new() -> Validator {
        Validator
    }

    /// Validates an object by the rules of a schema, with the old object if
    /// there is one. Returns all errors, in order, or `Ok` if there are none.
    ///
    /// # Errors
    ///
    /// [`Refused`] if memory is refused, or a URL that a rule reads is too large.
    pub fn validate(
        &self,
        alloc: Global,
        schema: &Value,
        object: &Value,
        old: Option<&Value>,
    ) -> Result<Result<(), ValidationErrors>, Refused>
        ensures answer { IfOk result
            (IsReportOf raw_accessors (call_start schema.now object.now old.entry None)) }
    {
        self.validate_with_context(alloc, schema, object, old, None)
    }

    /// Validates like `validate`, with a root context that the rules at the root may read.
    ///
    /// # Errors
    ///
    /// [`Refused`] if memory is refused, or a URL that a rule reads is too large.
    pub fn validate_with_context(
        &self,
        alloc: Global,
        schema: &Value,
        object: &Value,
        old: Option<&Value>,
        root: Option<&RootContext>,
    ) -> Result<Result<(), ValidationErrors>, Refused>
        ensures answer { IfOk result
            (IsReportOf raw_accessors (call_start schema.now object.now old.entry root.entry)) }
    {
        let mut book = PatternBook::new(alloc);
        self.validate_in(alloc, schema, object, old, root, &mut book)
    }

    /// Validates like `validate_with_context`, with a lent book of patterns.
    /// Afterwards the book has all the entries that it had, and perhaps more.
    ///
    /// # Errors
    ///
    /// [`Refused`] if memory is refused, or a URL that a rule reads is too large.
    pub fn validate_in(
        &self,
        alloc: Global,
        schema: &Value,
        object: &Value,
        old: Option<&Value>,
        root: Option<&RootContext>,
        book: &mut PatternBook,
    ) -> Result<Result<(), ValidationErrors>, Refused>
        ensures kept { Extends (entries_of book.new) (entries_of book.old) }
        ensures answer { IfOk result (λ r. (b : Book) → Extends b (entries_of book.new)
            → answer_view r ≡ report_of
            (answer raw_accessors b 65 (call_start schema.now object.now old.entry root.entry))) }
        ensures places { IfOk result (λ r. (b : Book) → Extends b (entries_of book.new)
            → IsAnswer raw_accessors b (call_start schema.now object.now old.entry root.entry) (found_in r)) }
    {
        let mut compiled = compile_on_demand(alloc, schema)?;
        let filled = filled_by_node(alloc, &compiled.root(), object)?;
        compile_reached(alloc, &mut compiled, &filled)?;
        let answer = validation_by(alloc, &compiled, &filled, old, root, book)?;
        Ok(answer)
    }

    /// Validates like `validate`, by a compiled schema.
    ///
    /// # Errors
    ///
    /// [`Refused`] if memory is refused, or a URL that a rule reads is too large.
    pub fn validate_compiled(
        &self,
        alloc: Global,
        compiled: &CompiledSchema,
        object: &Value,
        old: Option<&Value>,
    ) -> Result<Result<(), ValidationErrors>, Refused>
        ensures answer { IfOk result (λ r. (s : Data) → whole compiled.now ≡ view_of 65 s
            → IsReportOf raw_accessors (source_start s object.now old.entry None) r) }
    {
        self.validate_compiled_with_context(alloc, compiled, object, old, None)
    }

    /// Validates like `validate_with_context`, by a compiled
    /// schema: the answer is that of the schema itself.
    ///
    /// # Errors
    ///
    /// [`Refused`] if memory is refused, or a URL that a rule reads is too large.
    pub fn validate_compiled_with_context(
        &self,
        alloc: Global,
        compiled: &CompiledSchema,
        object: &Value,
        old: Option<&Value>,
        root: Option<&RootContext>,
    ) -> Result<Result<(), ValidationErrors>, Refused>
        ensures answer { IfOk result (λ r. (s : Data) → whole compiled.now ≡ view_of 65 s
            → IsReportOf raw_accessors (source_start s object.now old.entry root.entry) r) }
    {
        let mut book = PatternBook::new(alloc);
        self.validate_compiled_in(alloc, compiled, object, old, root, &mut book)
    }

    /// Validates like `validate_in`, by a compiled schema. With
    /// one book lent to both calls, both give the same answer.
    ///
    /// # Errors
    ///
    /// [`Refused`] if memory is refused, or a URL that a rule reads is too large.
    pub fn validate_compiled_in(
        &self,
        alloc: Global,
        compiled: &CompiledSchema,
        object: &Value,
        old: Option<&Value>,
        root: Option<&RootContext>,
        book: &mut PatternBook,
    ) -> Result<Result<(), ValidationErrors>, Refused>
        ensures kept { Extends (entries_of book.new) (entries_of book.old) }
        ensures tree { IfOk result (λ r. (b : Book) → Extends b (entries_of book.new)
            → answer_view r ≡ report_of
            (answer compiled_accessors b 65 (compiled_start compiled.now object.now old.entry root.entry))) }
        ensures answer { IfOk result (λ r. (b : Book) → Extends b (entries_of book.new)
            → (s : Data) → whole compiled.now ≡ view_of 65 s
            → answer_view r ≡ report_of (answer raw_accessors b 65
            (source_start s object.now old.entry root.entry))) }
        ensures places { IfOk result (λ r. (b : Book) → Extends b (entries_of book.new)
            → (s : Data) → whole compiled.now ≡ view_of 65 s
            → IsAnswer raw_accessors b (source_start s object.now old.entry root.entry) (found_in r)) }
    {
        let object = filled_by_node(alloc, &compiled.root(), object)?;
        let answer = validation_by(alloc, compiled, &object, old, root, book)?;
        Ok(answer)
    }

    /// Same as `validate`, which always applies defaults.
    ///
    /// # Errors
    ///
    /// [`Refused`] if memory is refused, or a URL that a rule reads is too large.
    pub fn validate_with_defaults(
        &self,
        alloc: Global,
        schema: &Value,
        object: &Value,
        old: Option<&Value>,
    ) -> Result<Result<(), ValidationErrors>, Refused>
        ensures answer { IfOk result
            (IsReportOf raw_accessors (call_start schema.now object.now old.entry None)) }
    {
        self.validate(alloc, schema, object, old)
    }

    /// Same as `validate_with_context`, which always applies defaults.
    ///
    /// # Errors
    ///
    /// [`Refused`] if memory is refused, or a URL that a rule reads is too large.
    pub fn validate_with_defaults_and_context(
        &self,
        alloc: Global,
        schema: &Value,
        object: &Value,
        old: Option<&Value>,
        root: Option<&RootContext>,
    ) -> Result<Result<(), ValidationErrors>, Refused>
        ensures answer { IfOk result
            (IsReportOf raw_accessors (call_start schema.now object.now old.entry root.entry)) }
    {
        self.validate_with_context(alloc, schema, object, old, root)
    }
}

/// Validates an object that already has its defaults, by a table that keeps `K` of its nodes.
fn validation_by<K: NodeKeywords>(
    alloc: Global,
    compiled: &CompiledSchema<K>,
    object: &Value,
    old: Option<&Value>,
    root: Option<&RootContext>,
    book: &mut PatternBook,
) -> Result<Result<(), ValidationErrors>, Refused>
    ensures kept { Extends (entries_of book.new) (entries_of book.old) }
    ensures answer { IfOk result (λ r. (b : Book) → Extends b (entries_of book.new)
        → answer_view r ≡ report_of (answer compiled_accessors b 65
        (filled_start (whole compiled.now) object.now old.entry root.entry))) }
{
    let node = compiled.root();
    let Some(old) = old else {
        let answer = validation_of(alloc, CompiledNode { node }, object, None, root, book)?;
        return Ok(answer);
    };
    let old = filled_by_node(alloc, &node, old)?;
    let answer = validation_of(alloc, CompiledNode { node }, object, Some(&old), root, book)?;
    Ok(answer)
}

/// Validates an object by the rules of a schema, like [`Validator::validate`].
///
/// # Errors
///
/// [`Refused`] if memory is refused, or a URL that a rule reads is too large.
pub fn validate(
    alloc: Global,
    schema: &Value,
    object: &Value,
    old: Option<&Value>,
) -> Result<Result<(), ValidationErrors>, Refused>
    ensures answer { IfOk result
        (IsReportOf raw_accessors (call_start schema.now object.now old.entry None)) }
{
    Validator::new().validate(alloc, schema, object, old)
}

/// Validates an object by a compiled schema, like [`Validator::validate_compiled`].
///
/// # Errors
///
/// [`Refused`] if memory is refused, or a URL that a rule reads is too large.
pub fn validate_compiled(
    alloc: Global,
    compiled: &CompiledSchema,
    object: &Value,
    old: Option<&Value>,
) -> Result<Result<(), ValidationErrors>, Refused>
    ensures answer { IfOk result (λ r. (s : Data) → whole compiled.now ≡ view_of 65 s
        → IsReportOf raw_accessors (source_start s object.now old.entry None) r) }
{
    Validator::new().validate_compiled(alloc, compiled, object, old)
}
