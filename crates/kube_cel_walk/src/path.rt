//! The path of a place, and the paths of errors.
ghost use Rattle.kube_cel_walk.specs.Paths.{path_view};
ghost use Rattle.kube_cel_walk.specs.RuleErrors.{joined_path, rule_path};
ghost use Rattle.kube_schema_rules.specs.Visit.{item_path, member_path};
ghost use Rattle.kube_schema_rules.specs.Rules.{rule_view};
ghost use Rattle.std.specs.Prelude.{◌≡◌, IfOk, OnOk, string_bytes};

use itoa::Buffer;
use kube_schema_rules::Rule;
use std::alloc::{AllocError, Global};

/// The path of a place, by its last step. A walk makes one at each step
/// and no text: the text of a path is made where an error is.
#[derive(Clone, Copy)]
pub enum Path<'a> {
    /// The root of the object.
    Root,
    /// A member, by its key, of the value at a path.
    Member(&'a Path<'a>, &'a str),
    /// An item, by its index, of the list at a path.
    Item(&'a Path<'a>, usize),
}

impl Path<'_> {
    /// Returns the text of the path: keys joined by dots, and indices in brackets.
    pub fn text(&self, alloc: Global) -> Result<String, AllocError>
        ensures { IfOk result (λ s. string_bytes s ≡ path_view self.now) }
    {
        match self {
            Path::Root => Ok(String::new(alloc)),
            Path::Member(outer, key) => {
                let mut text = outer.text(alloc)?;
                push_member(&mut text, key)?;
                Ok(text)
            }
            Path::Item(outer, index) => {
                let mut text = outer.text(alloc)?;
                push_item(&mut text, *index)?;
                Ok(text)
            }
        }
    }
}

/// Appends a key: `k` to the empty path, else `.k`.
#[tactic(auto, unfolding(kube_schema_rules::specs::Visit::member_path))]
fn push_member(path: &mut String, key: &str) -> Result<(), AllocError>
    ensures { OnOk result (string_bytes path.new ≡ member_path (string_bytes path.old) key.now) }
{
    if !path.is_empty() {
        path.push_str(".")?;
    }
    path.push_str(key)?;
    Ok(())
}

/// Appends an index: `[i]`.
#[tactic(auto, unfolding(kube_schema_rules::specs::Visit::item_path))]
fn push_item(path: &mut String, index: usize) -> Result<(), AllocError>
    ensures { OnOk result (string_bytes path.new ≡ item_path (string_bytes path.old) index) }
{
    let mut digits = Buffer::new();
    path.push_str("[")?;
    path.push_str(digits.format(index))?;
    path.push_str("]")?;
    Ok(())
}

/// Returns the path of a rule's error: the path of the value,
/// followed by the rule's own `fieldPath`, if it has one.
pub fn error_path(alloc: Global, path: &Path<'_>, rule: &Rule) -> Result<String, AllocError>
    ensures { IfOk result (λ s. string_bytes s ≡ rule_path (path_view path.now) (rule_view rule.now).field_path) }
{
    let mut joined = path.text(alloc)?;
    let Some(own) = &rule.field_path else {
        return Ok(joined);
    };
    push_own(&mut joined, own.as_str())?;
    Ok(joined)
}

/// Appends a rule's own `fieldPath`: as it stands if it begins with a dot, else as a key.
fn push_own(path: &mut String, own: &str) -> Result<(), AllocError>
    ensures { OnOk result (string_bytes path.new ≡ joined_path (string_bytes path.old) own.now) }
{
    if own.starts_with('.') {
        path.push_str(own)?;
        return Ok(());
    }
    push_member(path, own)?;
    Ok(())
}
