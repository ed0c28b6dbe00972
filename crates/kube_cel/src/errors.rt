//! The answer of a whole walk.
ghost use Rattle.cel.specs.Book.{Extends, Book};
ghost use Rattle.cel.specs.Entries.{entries_of};
ghost use Rattle.kube_cel.specs.Answers.{report_of, answer_view};
ghost use Rattle.kube_cel.specs.Starts.{start_without_defaults};
ghost use Rattle.kube_cel_walk.specs.Answers.{answer};
ghost use Rattle.kube_cel_walk.specs.Errors.{error_view};
ghost use Rattle.std.specs.Prelude.{◌≡◌, IfOk, map};

use cel::PatternBook;
use kube_cel_walk::{
    KeptContext, Node, Path, RootContext, ValidationError, ValidationErrors, WalkState, walk_node,
};
use kube_types::Refused;
use serde_json::Value;
use std::alloc::Global;

/// Validates an object that already has its defaults, and its old
/// object if there is one, by the schema whose root is `node`.
pub(crate) fn validation_of<N: Node>(
    alloc: Global,
    node: N,
    object: &Value,
    old: Option<&Value>,
    root: Option<&RootContext>,
    book: &mut PatternBook,
) -> Result<Result<(), ValidationErrors>, Refused>
    ensures kept { Extends (entries_of book.new) (entries_of book.old) }
    ensures answer { IfOk result (λ r. (b : Book) → Extends b (entries_of book.new)
        → answer_view r ≡ report_of
        (answer N.form b 65 (start_without_defaults (N.seen node) object.now old.entry root.entry))) }
{
    let mut kept = KeptContext::new(alloc);
    let mut errors = Vec::new(alloc);
    let state = WalkState {
        node,
        value: object,
        old,
        root,
        depth: 0,
    };
    walk_node(&state, &Path::Root, &mut kept, book, &mut errors)?;
    Ok(report(errors))
}

/// Returns the errors, if there are any.
fn report(errors: Vec<ValidationError>) -> Result<(), ValidationErrors>
    ensures { answer_view result ≡ report_of (map error_view errors.items) }
{
    if errors.is_empty() {
        return Ok(());
    }
    Err(ValidationErrors::from(errors))
}
