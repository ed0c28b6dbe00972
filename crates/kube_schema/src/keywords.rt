//! The keywords of a single schema.
ghost use Rattle.std.specs.Prelude.{◌≡◌, IfErr, IfOk, option_map};
ghost use Rattle.serde_json.specs.View.{view, items_view, members_view};
ghost use Rattle.kube_schema_values.specs.DefaultsAccessors.{declared_properties, additional, preserves, default_in};
ghost use Rattle.kube_schema_values.specs.Node.{is_set, format_of, is_map, is_embedded};
ghost use Rattle.kube_schema.specs.View.{limit, branches};
ghost use Rattle.kube_schema.specs.Raw.{keywords_view};
ghost use Rattle.kube_schema.specs.Source.{marker_with, own_with};

use crate::LEVELS;
use crate::node_keywords::NodeKeywords;
use crate::nodes::Keywords;
use kube_schema_rules::{CompiledRules, NodeRules};
use kube_schema_values::SchemaFormat;
use kube_types::Refused;
use serde_json::{Map, Value};
use std::alloc::{AllocError, Global};

impl NodeKeywords for Keywords {
    ghost use Rattle.kube_schema.specs.Raw.{keywords_view};

    ghost own = { keywords_view };

    #[tactic(auto, unfolding(crate::specs::Raw::keywords_view))]
    fn rules(&self, _alloc: Global) -> Result<CompiledRules<'_>, Refused> {
        Ok(CompiledRules::Lent(&self.validations))
    }

    #[tactic(auto, unfolding(crate::specs::Raw::keywords_view))]
    fn may_have_rules(&self) -> bool {
        !self.validations.rules.is_empty()
    }

    #[tactic(auto, unfolding(crate::specs::Raw::keywords_view))]
    fn string_format(&self) -> SchemaFormat {
        self.format
    }

    #[tactic(auto, unfolding(crate::specs::Raw::keywords_view))]
    fn is_map(&self) -> bool {
        self.is_map
    }

    #[tactic(auto, unfolding(crate::specs::Raw::keywords_view))]
    fn preserves(&self) -> bool {
        self.preserve_unknown_fields
    }

    #[tactic(auto, unfolding(crate::specs::Raw::keywords_view))]
    fn is_embedded(&self) -> bool {
        self.embedded_resource
    }

    #[tactic(auto, unfolding(crate::specs::Raw::keywords_view))]
    fn default(&self) -> Option<&Value> {
        self.default.as_ref()
    }
}

// Returns the keywords of a schema, with a copy of this default.
pub(crate) fn keywords_with(
    alloc: Global,
    schema: &Value,
    default: Option<&Value>,
) -> Result<Keywords, Refused>
    ensures keywords { IfOk result (λ k. keywords_view k
        ≡ own_with (view schema.now) (option_map (λ v. view v.now) default.entry)) }
    ensures memory { IfErr result (λ e. e ≡ Refused.Memory) }
{
    let validations = NodeRules::of_schema(alloc, schema)?;
    let default = copy_of(default)?;
    Ok(Keywords {
        validations,
        format: format_of(schema),
        is_map: is_map(schema),
        preserve_unknown_fields: preserves(schema),
        embedded_resource: is_embedded(schema),
        max_length: limit(schema, "maxLength"),
        max_items: limit(schema, "maxItems"),
        max_properties: limit(schema, "maxProperties"),
        default,
    })
}

// Returns the keywords of the marker of a schema with this default.
#[tactic(auto, unfolding(crate::specs::View::marker_view, crate::specs::Raw::keywords_view))]
pub(crate) fn marker_with(alloc: Global, default: Option<&Value>) -> Result<Keywords, Refused>
    ensures keywords { IfOk result (λ k. keywords_view k
        ≡ marker_with (option_map (λ v. view v.now) default.entry)) }
    ensures memory { IfErr result (λ e. e ≡ Refused.Memory) }
{
    let validations = NodeRules::too_deep(alloc, LEVELS)?;
    let default = copy_of(default)?;
    Ok(Keywords {
        validations,
        format: SchemaFormat::None,
        is_map: false,
        preserve_unknown_fields: false,
        embedded_resource: false,
        max_length: None,
        max_items: None,
        max_properties: None,
        default,
    })
}

/// Reports whether a keyword is present and `true`.
pub(crate) fn is_set(schema: &Value, keyword: &str) -> bool
    ensures { result ≡ is_set keyword.now (view schema.now) }
{
    schema.get(keyword).and_then(Value::as_bool) == Some(true)
}

/// Returns how strings at a node are converted: `IntOrString` under
/// `x-kubernetes-int-or-string: true`, else what `format` names.
#[tactic(auto, unfolding(kube_schema_values::specs::Node::format_of))]
pub(crate) fn format_of(schema: &Value) -> SchemaFormat
    ensures { result ≡ format_of (view schema.now) }
{
    if is_set(schema, "x-kubernetes-int-or-string") {
        return SchemaFormat::IntOrString;
    }
    match schema.get("format").and_then(Value::as_str) {
        Some(name) => SchemaFormat::named(name),
        None => SchemaFormat::None,
    }
}

/// Reports whether a node is a map node, whose objects keep their
/// keys unescaped: `additionalProperties` is present and not `false`.
#[tactic(auto, unfolding(kube_schema_values::specs::Node::is_map))]
pub(crate) fn is_map(schema: &Value) -> bool
    ensures { result ≡ is_map (view schema.now) }
{
    match schema.get("additionalProperties") {
        Some(additional) => additional.as_bool() != Some(false),
        None => false,
    }
}

/// Reports whether the objects at a node are embedded
/// resources: `x-kubernetes-embedded-resource` is `true`.
#[tactic(auto, unfolding(kube_schema_values::specs::Node::is_embedded))]
pub(crate) fn is_embedded(schema: &Value) -> bool
    ensures { result ≡ is_embedded (view schema.now) }
{
    is_set(schema, "x-kubernetes-embedded-resource")
}

/// `default`, if it is there.
#[tactic(auto, unfolding(kube_schema_values::specs::DefaultsAccessors::default_in))]
pub(crate) fn default_in(schema: &Value) -> Option<&Value>
    ensures { option_map (λ v. view v.now) result ≡ default_in (view schema.now) }
{
    schema.get("default")
}

fn copy_of(value: Option<&Value>) -> Result<Option<Value>, AllocError>
    ensures { IfOk result (λ o. option_map view o ≡ option_map (λ v. view v.now) value.entry) }
{
    let Some(value) = value else {
        return Ok(None);
    };
    let copy = value.clone()?;
    Ok(Some(copy))
}

#[tactic(auto, unfolding(kube_schema_values::specs::DefaultsAccessors::preserves))]
pub(crate) fn preserves(schema: &Value) -> bool
    ensures { result ≡ preserves (view schema.now) }
{
    schema
        .get("x-kubernetes-preserve-unknown-fields")
        .and_then(Value::as_bool)
        .unwrap_or(false)
}

#[tactic(auto, unfolding(crate::specs::View::limit))]
fn limit(schema: &Value, keyword: &str) -> Option<u64>
    ensures { result ≡ limit keyword.now (view schema.now) }
{
    schema.get(keyword)?.as_u64()
}

#[tactic(auto, unfolding(kube_schema_values::specs::DefaultsAccessors::declared_properties))]
pub(crate) fn declared(schema: &Value) -> Option<&Map<String, Value>>
    ensures { option_map (λ m. members_view m.now.entries) result ≡ declared_properties (view schema.now) }
{
    schema.get("properties")?.as_object()
}

#[tactic(auto, unfolding(crate::specs::View::branches))]
pub(crate) fn branches<'s>(schema: &'s Value, keyword: &str) -> Option<&'s Vec<Value>>
    ensures { option_map (λ v. items_view v.now.items) result ≡ branches keyword.now (view schema.now) }
{
    schema.get(keyword)?.as_array()
}

#[tactic(auto, unfolding(kube_schema_values::specs::DefaultsAccessors::additional))]
pub(crate) fn additional(schema: &Value) -> Option<&Value>
    ensures { option_map (λ n. view n.now) result ≡ additional (view schema.now) }
{
    let node = schema.get("additionalProperties")?;
    if node.is_object() { Some(node) } else { None }
}
