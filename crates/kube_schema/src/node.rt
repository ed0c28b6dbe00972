//! Compiled schemas and their nodes, as callers see them.
ghost use Rattle.std.specs.Prelude.{◌≡◌, ◌<◌, ℕ, length, option_map, slice_get, IfSome, Some};
ghost use Rattle.kube_schema.specs.NoRules.{AreKnown, known_prop};
ghost use Rattle.kube_schema.specs.Raw.{tree, any_default, named_at, LinksOrdered};
ghost use Rattle.kube_schema.specs.Tree.{Node, count, find};

use crate::node_keywords::NodeKeywords;
use crate::nodes::{Keywords, NodeId, PropertyLink, TableNode};
use crate::table::Table;
use kube_schema_rules::{BranchKind, CompilationError, CompilationResult, Demands, NodeRules};
use kube_schema_values::SchemaFormat;
use kube_types::Refused;
use serde_json::Value;
use std::alloc::{AllocError, Global};

/// A compiled schema: a table of its nodes, which keeps `K` of the keywords of each.
#[derive(Debug)]
pub struct CompiledSchema<K: NodeKeywords = Keywords> {
    pub(crate) table: Table<K>,
    // Whether any node has a default.
    pub(crate) defaults: bool,
    // Of each node: how many levels are below it at most, if it is known that none has a rule.
    pub(crate) below: Vec<Option<u8>>,
    ghost known: { defaults ≡ any_default K.own table.nodes.items },
    ghost rooted: { 0 < length table.nodes.items },
    ghost without_rules: { AreKnown K.own table.nodes.items below.items } by { known_prop K.own table.nodes.items below.items },
    ghost counted: { length table.nodes.items ≡ count (tree K.own table.nodes.items 0) },
}

// By hand, so that a proof about code that owns one doesn't go through its parts.
impl<K: NodeKeywords> Drop for CompiledSchema<K> {
    fn drop(self) {
        let CompiledSchema {
            table: _,
            defaults: _,
            below: _,
        } = self;
    }
}

/// A node of a compiled schema.
#[derive(Debug)]
pub struct SchemaNode<'a, K: NodeKeywords = Keywords> {
    schema: &'a CompiledSchema<K>,
    number: NodeId,
    ghost stands: { number.0 < length schema.now.table.nodes.items },
}

impl<K: NodeKeywords> Clone for SchemaNode<'_, K> {
    ghost use Rattle.std.specs.Prelude.{◌≡◌, ⊤};

    ghost is_clone = { λ n m. m ≡ n };

    ghost is_infallible = { λ _. ⊤ };

    fn clone(&self) -> Result<Self, AllocError> {
        Ok(*self)
    }
}

impl<K: NodeKeywords> Copy for SchemaNode<'_, K> {}

impl<K: NodeKeywords> CompiledSchema<K> {
    ghost use Rattle.std.specs.Prelude.{◌≡◌};
    ghost use Rattle.kube_schema.specs.Shown.{node_tree, whole};
    ghost use Rattle.kube_schema.specs.Tree.{count};

    /// The number of nodes, including markers.
    pub fn node_count(&self) -> usize
        ensures { result ≡ count (whole self.now) }
    {
        self.table.nodes.len()
    }

    /// The root node.
    pub fn root(&self) -> SchemaNode<'_, K>
        ensures { node_tree result ≡ whole self.now }
    {
        SchemaNode {
            schema: self,
            number: NodeId(0),
        }
    }
}

impl CompiledSchema {
    ghost use Rattle.std.specs.Prelude.{◌≡◌, length, map, option_map, is_err, IfErr, IfOk, IfSome, Some};
    ghost use Rattle.std.specs.List.{list_any};
    ghost use Rattle.serde_json.specs.View.{view};
    ghost use Rattle.kube_schema_rules.specs.Compilation.{compiled_seen, error_view};
    ghost use Rattle.kube_schema.specs.Shown.{node_tree, whole};
    ghost use Rattle.kube_schema.specs.Tree.{items_of, additional_of, property_of, default_of, nth_named, nth_node, named_of, names, all_of, one_of, any_of, own, malformed_in};

    /// The node of list items, if the schema has `items`.
    pub fn items(&self) -> Option<SchemaNode<'_>>
        ensures { option_map node_tree result ≡ items_of (whole self.now) }
    {
        self.root().items()
    }

    /// The node of undeclared keys, if `additionalProperties` is an object.
    pub fn additional_properties(&self) -> Option<SchemaNode<'_>>
        ensures { option_map node_tree result ≡ additional_of (whole self.now) }
    {
        self.root().additional_properties()
    }

    /// The branch of `allOf` at an index, if any.
    pub fn all_of(&self, i: usize) -> Option<SchemaNode<'_>>
        ensures { option_map node_tree result ≡ nth_node i (all_of (whole self.now)) }
    {
        self.root().all_of(i)
    }

    /// The branch of `oneOf` at an index, if any.
    pub fn one_of(&self, i: usize) -> Option<SchemaNode<'_>>
        ensures { option_map node_tree result ≡ nth_node i (one_of (whole self.now)) }
    {
        self.root().one_of(i)
    }

    /// The branch of `anyOf` at an index, if any.
    pub fn any_of(&self, i: usize) -> Option<SchemaNode<'_>>
        ensures { option_map node_tree result ≡ nth_node i (any_of (whole self.now)) }
    {
        self.root().any_of(i)
    }

    /// The number of properties.
    pub fn property_count(&self) -> usize
        ensures { result ≡ length (names (named_of (whole self.now))) }
    {
        self.root().property_count()
    }

    /// The node that `properties` declares for a name, if any.
    pub fn property_named(&self, name: &str) -> Option<SchemaNode<'_>>
        ensures { option_map node_tree result ≡ property_of name.now (whole self.now) }
    {
        self.root().property_named(name)
    }

    /// The rules at the root, in order, each either compiled or with the reason why it isn't.
    pub fn validations(&self) -> &[Result<CompilationResult, CompilationError>]
        ensures { map compiled_seen result.now ≡ (own (whole self.now)).validations }
    {
        self.root().validations()
    }

    /// Reports whether a rule at the root is malformed.
    pub fn has_errors(&self) -> bool
        ensures { result ≡ list_any is_err (own (whole self.now)).validations }
    {
        self.root().has_errors()
    }

    /// Returns the errors of the malformed rules at the root, in the order of the rules.
    ///
    /// # Errors
    ///
    /// [`Refused`] if memory is refused.
    pub fn compilation_errors(&self, alloc: Global) -> Result<Vec<&CompilationError>, Refused>
        ensures errors { IfOk result (λ v. map (λ e. error_view e.now) v.items
            ≡ malformed_in (own (whole self.now)).validations) }
        ensures memory { IfErr result (λ e. e ≡ Refused.Memory) }
    {
        self.root().compilation_errors(alloc)
    }

    /// The format by which strings at the root are converted.
    pub fn format(&self) -> &SchemaFormat
        ensures { result.now ≡ (own (whole self.now)).format }
    {
        self.root().format()
    }

    /// Reports whether `additionalProperties` is present and not `false`.
    pub fn is_map(&self) -> bool
        ensures { result ≡ (own (whole self.now)).is_map }
    {
        self.root().is_map()
    }

    /// Reports whether `x-kubernetes-preserve-unknown-fields` is `true`.
    pub fn preserve_unknown_fields(&self) -> bool
        ensures { result ≡ (own (whole self.now)).preserves }
    {
        self.root().preserve_unknown_fields()
    }

    /// Reports whether `x-kubernetes-embedded-resource` is `true`.
    pub fn embedded_resource(&self) -> bool
        ensures { result ≡ (own (whole self.now)).embedded }
    {
        self.root().embedded_resource()
    }

    /// `maxLength`, if it is a whole number that fits `u64`.
    pub fn max_length(&self) -> Option<u64>
        ensures { result ≡ (own (whole self.now)).max_length }
    {
        self.root().max_length()
    }

    /// `maxItems`, if it is a whole number that fits `u64`.
    pub fn max_items(&self) -> Option<u64>
        ensures { result ≡ (own (whole self.now)).max_items }
    {
        self.root().max_items()
    }

    /// `maxProperties`, if it is a whole number that fits `u64`.
    pub fn max_properties(&self) -> Option<u64>
        ensures { result ≡ (own (whole self.now)).max_properties }
    {
        self.root().max_properties()
    }

    /// `default`, as it stands in the schema.
    pub fn default(&self) -> Option<&Value>
        ensures { option_map (λ v. view v.now) result ≡ default_of (whole self.now) }
    {
        self.root().default()
    }

    /// The property at an index, with its name, in name order.
    pub fn property(&self, i: usize) -> Option<(&str, SchemaNode<'_>)>
        ensures pair { option_map (λ p. (p.0.now, node_tree p.1)) result
            ≡ nth_named i (named_of (whole self.now)) }
        ensures named { IfSome result (λ p. property_of p.0.now (whole self.now) ≡ Some (node_tree p.1)) }
    {
        self.root().property(i)
    }
}

impl<'a, K: NodeKeywords> SchemaNode<'a, K> {
    ghost use Rattle.std.specs.Bool.{IsTrue};
    ghost use Rattle.std.specs.Cmp.Lexicographic.{slice_cmp};
    ghost use Rattle.std.specs.List.Sorted.{IsStrictlySortedBy};
    ghost use Rattle.std.specs.Ordering.{nat_cmp};
    ghost use Rattle.std.specs.Prelude.{◌≡◌, ◌<◌, ℕ, suc, length, map, false, option_map, is_err, IfErr, IfOk, IfSome, Some};
    ghost use Rattle.std.specs.List.{list_any};
    ghost use Rattle.serde_json.specs.View.{view};
    ghost use Rattle.kube_schema_rules.specs.Compilation.{compiled_seen, error_view};
    ghost use Rattle.kube_schema_rules.specs.Demands.{AreDemands, rules_read};
    ghost use Rattle.kube_schema_values.specs.Without.{HasNoDefaults};
    ghost use Rattle.kube_schema.specs.CompiledDefaults.{tree_accessors};
    ghost use Rattle.kube_schema.specs.Shown.{node_tree};
    ghost use Rattle.kube_schema.specs.NoRules.{HasNoRulesBelow};
    ghost use Rattle.kube_schema.specs.Raw.{tree, assemble, nodes_at, IsWithin, LinksOrdered, NumbersWithin};
    ghost use Rattle.kube_schema.specs.Tree.{items_of, additional_of, property_of, default_of, nth_named, nth_node, named_of, names, all_of, one_of, any_of, own, malformed_in, nodes_length, branches_of};

    // The node as stored in the table.
    fn raw(&self) -> &'a TableNode<K>
        ensures is { node_tree self.now ≡ assemble K.own (tree K.own self.now.schema.now.table.nodes.items) result.now }
        ensures within { IsWithin (suc self.now.number.0)
            (length self.now.schema.now.table.nodes.items) result.now.children }
        ensures ordered { LinksOrdered result.now.children.properties.items }
    {
        &self.schema.table.nodes[self.number.0]
    }

    /// What the table keeps of the node's keywords.
    pub fn keywords(&self) -> &'a K
        ensures { K.own result.now ≡ own (node_tree self.now) }
    {
        &self.raw().keywords
    }

    // The node's index in the table.
    pub(crate) fn number(&self) -> usize {
        self.number.0
    }

    fn at(&self, number: NodeId) -> SchemaNode<'a, K>
        requires { number.0 < length self.now.schema.now.table.nodes.items }
        ensures { node_tree result ≡ tree K.own self.now.schema.now.table.nodes.items number.0 }
    {
        SchemaNode {
            schema: self.schema,
            number,
        }
    }

    // The node at an index of a list of node numbers, if any.
    fn nth(&self, numbers: &'a Vec<NodeId>, i: usize) -> Option<SchemaNode<'a, K>>
        requires { NumbersWithin (suc self.now.number.0)
            (length self.now.schema.now.table.nodes.items) numbers.now.items }
        ensures { option_map node_tree result
            ≡ nth_node i (nodes_at (tree K.own self.now.schema.now.table.nodes.items) numbers.now.items) }
    {
        if i >= numbers.len() {
            return None;
        }
        Some(self.at(numbers[i]))
    }

    /// The node of list items, if the schema has `items`.
    pub fn items(&self) -> Option<SchemaNode<'a, K>>
        ensures { option_map node_tree result ≡ items_of (node_tree self.now) }
    {
        let Some(number) = self.raw().children.items else {
            return None;
        };
        Some(self.at(number))
    }

    /// The node of undeclared keys, if `additionalProperties` is an object.
    pub fn additional_properties(&self) -> Option<SchemaNode<'a, K>>
        ensures { option_map node_tree result ≡ additional_of (node_tree self.now) }
    {
        let Some(number) = self.raw().children.additional else {
            return None;
        };
        Some(self.at(number))
    }

    /// The branch of `allOf` at an index, if any.
    pub fn all_of(&self, i: usize) -> Option<SchemaNode<'a, K>>
        ensures { option_map node_tree result ≡ nth_node i (all_of (node_tree self.now)) }
    {
        let raw = self.raw();
        self.nth(&raw.children.all_of, i)
    }

    /// The branch of `oneOf` at an index, if any.
    pub fn one_of(&self, i: usize) -> Option<SchemaNode<'a, K>>
        ensures { option_map node_tree result ≡ nth_node i (one_of (node_tree self.now)) }
    {
        let raw = self.raw();
        self.nth(&raw.children.one_of, i)
    }

    /// The branch of `anyOf` at an index, if any.
    pub fn any_of(&self, i: usize) -> Option<SchemaNode<'a, K>>
        ensures { option_map node_tree result ≡ nth_node i (any_of (node_tree self.now)) }
    {
        let raw = self.raw();
        self.nth(&raw.children.any_of, i)
    }

    /// The number of branches under a keyword.
    pub fn branch_count(&self, kind: BranchKind) -> usize
        ensures { result ≡ nodes_length (branches_of kind (node_tree self.now)) }
    {
        let raw = self.raw();
        match kind {
            BranchKind::AllOf => raw.children.all_of.len(),
            BranchKind::OneOf => raw.children.one_of.len(),
            BranchKind::AnyOf => raw.children.any_of.len(),
        }
    }

    /// The branch under a keyword at an index, if any.
    pub fn branch(&self, kind: BranchKind, i: usize) -> Option<SchemaNode<'a, K>>
        ensures { option_map node_tree result ≡ nth_node i (branches_of kind (node_tree self.now)) }
    {
        match kind {
            BranchKind::AllOf => self.all_of(i),
            BranchKind::OneOf => self.one_of(i),
            BranchKind::AnyOf => self.any_of(i),
        }
    }

    /// The number of properties. Their names are sorted.
    pub fn property_count(&self) -> usize
        ensures count { result ≡ length (names (named_of (node_tree self.now))) }
        ensures ordered { IsStrictlySortedBy (slice_cmp nat_cmp) (names (named_of (node_tree self.now))) }
    {
        self.raw().children.properties.len()
    }

    /// The property at an index, with its name, in name order.
    pub fn property(&self, i: usize) -> Option<(&'a str, SchemaNode<'a, K>)>
        ensures pair { option_map (λ p. (p.0.now, node_tree p.1)) result
            ≡ nth_named i (named_of (node_tree self.now)) }
        ensures named { IfSome result (λ p. property_of p.0.now (node_tree self.now) ≡ Some (node_tree p.1)) }
    {
        let raw = self.raw();
        if i >= raw.children.properties.len() {
            return None;
        }
        let link = &raw.children.properties[i];
        Some((link.name.as_str(), self.at(link.node)))
    }

    /// The node that `properties` declares for a name, if any.
    pub fn property_named(&self, name: &str) -> Option<SchemaNode<'a, K>>
        ensures { option_map node_tree result ≡ property_of name.now (node_tree self.now) }
    {
        let raw = self.raw();
        match link_of(&raw.children.properties, name) {
            Some(link) => Some(self.at(link.node)),
            None => None,
        }
    }

    /// Reports whether `additionalProperties` is present and not `false`.
    pub fn is_map(&self) -> bool
        ensures { result ≡ (own (node_tree self.now)).is_map }
    {
        self.keywords().is_map()
    }

    /// Reports whether `x-kubernetes-preserve-unknown-fields` is `true`.
    pub fn preserve_unknown_fields(&self) -> bool
        ensures { result ≡ (own (node_tree self.now)).preserves }
    {
        self.keywords().preserves()
    }

    /// Reports whether `x-kubernetes-embedded-resource` is `true`.
    pub fn embedded_resource(&self) -> bool
        ensures { result ≡ (own (node_tree self.now)).embedded }
    {
        self.keywords().is_embedded()
    }

    /// `default`, as it stands in the schema.
    pub fn default(&self) -> Option<&'a Value>
        ensures { option_map (λ v. view v.now) result ≡ default_of (node_tree self.now) }
    {
        self.keywords().default()
    }

    // Reports whether any node of the same schema has a default. The contract only
    // covers false: then no schema within this node declares a default, at any depth.
    pub(crate) fn may_have_defaults(&self) -> bool
        ensures { result ≡ false → (levels : ℕ) → HasNoDefaults tree_accessors levels (node_tree self.now) }
    {
        self.schema.defaults
    }

    /// Reports whether it is known that no node below this one has rules, and that there
    /// are at most `levels` levels of them. The contract only covers true.
    pub fn has_no_rules_below(&self, levels: usize) -> bool
        ensures { IsTrue result → HasNoRulesBelow levels (node_tree self.now) }
    {
        let Some(Some(below)) = self.schema.below.get(self.number.0) else {
            return false;
        };
        usize::from(*below) <= levels
    }
}

impl<'a> SchemaNode<'a> {
    ghost use Rattle.std.specs.Bool.{IsTrue};
    ghost use Rattle.std.specs.Cmp.Lexicographic.{slice_cmp};
    ghost use Rattle.std.specs.List.Sorted.{IsStrictlySortedBy};
    ghost use Rattle.std.specs.Ordering.{nat_cmp};
    ghost use Rattle.std.specs.Prelude.{◌≡◌, ◌<◌, ℕ, suc, length, map, false, option_map, is_err, IfErr, IfOk, IfSome, Some};
    ghost use Rattle.std.specs.List.{list_any};
    ghost use Rattle.serde_json.specs.View.{view};
    ghost use Rattle.kube_schema_rules.specs.Compilation.{compiled_seen, error_view};
    ghost use Rattle.kube_schema_rules.specs.Demands.{AreDemands, rules_read};
    ghost use Rattle.kube_schema_values.specs.Without.{HasNoDefaults};
    ghost use Rattle.kube_schema.specs.CompiledDefaults.{tree_accessors};
    ghost use Rattle.kube_schema.specs.Shown.{node_tree};
    ghost use Rattle.kube_schema.specs.NoRules.{HasNoRulesBelow};
    ghost use Rattle.kube_schema.specs.Raw.{tree, assemble, nodes_at, IsWithin, LinksOrdered, NumbersWithin};
    ghost use Rattle.kube_schema.specs.Tree.{items_of, additional_of, property_of, default_of, nth_named, nth_node, named_of, names, all_of, one_of, any_of, own, malformed_in, nodes_length, branches_of};

    /// The rules of the node, with what they read. A marker has a single error instead of rules.
    pub fn rules(&self) -> &'a NodeRules
        ensures { map compiled_seen result.now.rules.items ≡ (own (node_tree self.now)).validations }
    {
        &self.raw().keywords.validations
    }

    /// The rules of the node, in order, each either compiled or with the
    /// reason why it isn't. A marker has a single error instead of rules.
    pub fn validations(&self) -> &'a [Result<CompilationResult, CompilationError>]
        ensures { map compiled_seen result.now ≡ (own (node_tree self.now)).validations }
    {
        self.rules().rules.as_slice()
    }

    /// How much of the values at a place the rules of the node read.
    pub fn demands(&self) -> &'a Demands
        ensures { AreDemands result.now (λ x. rules_read x (own (node_tree self.now)).validations) }
    {
        &self.rules().demands
    }

    /// Reports whether a rule of the node is malformed.
    pub fn has_errors(&self) -> bool
        ensures { result ≡ list_any is_err (own (node_tree self.now)).validations }
    {
        for validation in self.validations() {
            if validation.is_err() {
                return true;
            }
        }
        false
    }

    /// Returns the errors of the node's malformed rules, in the order of the rules.
    ///
    /// # Errors
    ///
    /// [`Refused`] if memory is refused.
    pub fn compilation_errors(&self, alloc: Global) -> Result<Vec<&'a CompilationError>, Refused>
        ensures errors { IfOk result (λ v. map (λ e. error_view e.now) v.items
            ≡ malformed_in (own (node_tree self.now)).validations) }
        ensures memory { IfErr result (λ e. e ≡ Refused.Memory) }
    {
        let mut errors = Vec::new(alloc);
        for validation in self.validations() {
            if let Err(error) = validation {
                errors.push(error)?;
            }
        }
        Ok(errors)
    }

    /// The format by which strings at the node are converted.
    pub fn format(&self) -> &'a SchemaFormat
        ensures { result.now ≡ (own (node_tree self.now)).format }
    {
        &self.raw().keywords.format
    }

    /// `maxLength`, if it is a whole number that fits `u64`.
    pub fn max_length(&self) -> Option<u64>
        ensures { result ≡ (own (node_tree self.now)).max_length }
    {
        self.raw().keywords.max_length
    }

    /// `maxItems`, if it is a whole number that fits `u64`.
    pub fn max_items(&self) -> Option<u64>
        ensures { result ≡ (own (node_tree self.now)).max_items }
    {
        self.raw().keywords.max_items
    }

    /// `maxProperties`, if it is a whole number that fits `u64`.
    pub fn max_properties(&self) -> Option<u64>
        ensures { result ≡ (own (node_tree self.now)).max_properties }
    {
        self.raw().keywords.max_properties
    }
}

// Finds the link of a name by binary search, among links in name order.
fn link_of<'a>(links: &'a [PropertyLink], name: &str) -> Option<&'a PropertyLink>
    requires { LinksOrdered links.now }
    ensures leads { (f : ℕ → Node)
        → option_map (λ l. f l.now.node.0) result ≡ find name.now (named_at f links.now) }
    ensures stands { IfSome result (λ l. (i : ℕ) × (slice_get links.now i ≡ Some l.now)) }
{
    match links.binary_search_by(|link| link.name.as_str().cmp(name)) {
        Ok(index) => Some(&links[index]),
        Err(_) => None,
    }
}
