//! Finds the places of a policy's expressions.
ghost use Rattle.kubecel_cli.specs.Indexed.{IsIndexOf, IsIndexed};
ghost use Rattle.kubecel_cli.specs.Reports.{entries_in, expression_of, expressions_view, is_labelled, name_of, path_of};
ghost use Rattle.serde_json.specs.Find.{as_array, get};
ghost use Rattle.serde_json.specs.View.{items_view, view};
ghost use Rattle.std.specs.List.{find, position_or_len};
ghost use Rattle.std.specs.Prelude.{◌≡◌, IfOk, codes, map, option_and_then, option_map, string_bytes};

use kube_manifests_texts::Index;
use kubecel_io::text_at;
use serde_json::Value;
use std::alloc::{AllocError, Global};

/// A list of expressions in a policy.
#[derive(Clone, Copy)]
pub(crate) struct Expressions {
    /// Its field in `spec`.
    pub(crate) list: &'static str,
    /// The field that names an entry.
    pub(crate) label: &'static str,
    /// The field with an entry's expression.
    pub(crate) expression: &'static str,
}

impl Expressions {
    /// The array of such a list in a policy, if there is one.
    fn array_in(self, policy: &Value) -> Option<&Vec<Value>>
        ensures { option_map (λ v. items_view v.now.items) result
            ≡ option_and_then as_array (option_and_then (get (expressions_view self).list)
            (get (codes "spec") (view policy.now))) }
    {
        policy.get("spec")?.get(self.list)?.as_array()
    }

    /// The entries of such a list in a policy. Empty if there is no such list.
    fn entries_in(self, policy: &Value) -> &[Value]
        ensures { map view result.now ≡ entries_in (expressions_view self) (view policy.now) }
    {
        match self.array_in(policy) {
            Some(entries) => entries.as_slice(),
            None => &[],
        }
    }
}

/// The entries of such a list in a policy, with where each label stands first.
#[derive(Drop)]
pub(crate) struct Entries<'p> {
    expressions: Expressions,
    entries: &'p [Value],
    /// By an empty text and the label.
    positions: Index,
}

impl<'p> Entries<'p> {
    /// Finds the entries of such a list in a policy.
    pub(crate) fn find_in(
        alloc: Global,
        expressions: Expressions,
        policy: &'p Value,
    ) -> Result<Entries<'p>, AllocError>
        ensures { IfOk result (IsIndexOf (expressions_view expressions) (view policy.now)) }
    {
        let entries = expressions.entries_in(policy);
        let mut positions = Index::new(alloc);
        let mut number = 0usize;
        for entry in entries {
            positions.insert_first(alloc, "", text_at(entry, expressions.label), number)?;
            number += 1;
        }
        Ok(Entries {
            expressions,
            entries,
            positions,
        })
    }

    /// Returns the number of the first entry with this label, or how many entries there are.
    fn number_of(&self, label: &str) -> usize
        requires { IsIndexed self.now }
        ensures { result ≡ position_or_len (is_labelled (expressions_view self.now.expressions) label.now)
            (map view self.now.entries.now) }
    {
        match self.positions.get("", label) {
            Some(number) => number,
            None => self.entries.len(),
        }
    }

    /// Returns the first entry with this label, if there is one.
    fn first_of(&self, label: &str) -> Option<&'p Value>
        requires { IsIndexed self.now }
        ensures { option_map (λ v. view v.now) result
            ≡ find (is_labelled (expressions_view self.now.expressions) label.now) (map view self.now.entries.now) }
    {
        let entries = self.entries;
        entries.get(self.positions.get("", label)?)
    }

    /// Returns the name of an entry with this label: the label, or the number of the first such entry if
    /// the label is its expression.
    fn name_of(&self, alloc: Global, label: &str) -> Result<String, AllocError>
        requires { IsIndexed self.now }
        ensures { IfOk result (λ s. string_bytes s
            ≡ name_of (expressions_view self.now.expressions) (map view self.now.entries.now) label.now) }
    {
        if self.expressions.label != self.expressions.expression {
            return String::from_str(alloc, label);
        }
        let number = self.number_of(label);
        format!(in alloc; "{number}")
    }

    /// Returns the path of an entry with this label.
    pub(crate) fn path_to(&self, alloc: Global, label: &str) -> Result<String, AllocError>
        requires { IsIndexed self.now }
        ensures { IfOk result (λ s. string_bytes s
            ≡ path_of (expressions_view self.now.expressions) (map view self.now.entries.now) label.now) }
    {
        let (list, name) = (self.expressions.list, self.name_of(alloc, label)?);
        format!(in alloc; "spec.{list}[{name}]")
    }

    /// Returns the expression of the first entry with this label. Empty if there is none.
    pub(crate) fn source_of(&self, alloc: Global, label: &str) -> Result<String, AllocError>
        requires { IsIndexed self.now }
        ensures { IfOk result (λ s. string_bytes s
            ≡ expression_of (expressions_view self.now.expressions) (map view self.now.entries.now) label.now) }
    {
        match self.first_of(label) {
            Some(entry) => String::from_str(alloc, text_at(entry, self.expressions.expression)),
            None => Ok(String::new(alloc)),
        }
    }
}
