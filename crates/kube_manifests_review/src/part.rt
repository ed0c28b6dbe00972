//! What the parts of a CustomResourceDefinition are.
ghost use Rattle.std.specs.Prelude.{◌≡◌};
ghost use Rattle.kube_manifests_review.specs.Stray.{form_text, has_form, has_no_rules, item_part, member_part, named_part, plain_member, schema_member, value_keywords};
ghost use Rattle.kube_manifests_review.specs.Keywords.{schema_fields};
ghost use Rattle.kube_manifests_texts.specs.Spelling.{is_word};
ghost use Rattle.serde_json.specs.View.{view};

use crate::keyword::SCHEMA_FIELDS;
use kube_manifests_texts::is_word;
use serde_json::Value;

/// What a part of a document is.
#[derive(Clone, Copy)]
pub(crate) enum Part {
    /// The whole document.
    Document,
    /// Its `spec`.
    Spec,
    /// The list of its versions.
    Versions,
    /// A version.
    Version,
    /// The `schema` of a version, which holds `openAPIV3Schema`.
    Validation,
    /// A schema.
    Schema,
    /// A schema or a bool.
    SchemaOrBool,
    /// A schema or a list of schemas.
    SchemaOrList,
    /// A schema or a list of strings.
    SchemaOrStrings,
    /// A list of schemas.
    SchemaList,
    /// An object of schemas by name.
    SchemaMap,
    /// An object of schemas or lists of strings by name.
    Dependencies,
    /// A value of any form, the rules of a schema, or what is below an unknown key: no schema is
    /// within it.
    Values,
    /// Anything else.
    Other,
}

const BOOL_KEYWORDS: [&str; 2] = ["additionalProperties", "additionalItems"];

const MAP_KEYWORDS: [&str; 3] = ["properties", "patternProperties", "definitions"];

const LIST_KEYWORDS: [&str; 3] = ["allOf", "oneOf", "anyOf"];

const VALUE_KEYWORDS: [&str; 4] = ["default", "enum", "example", "x-kubernetes-validations"];

/// Reports whether the value of a member of a schema has a form of its own.
#[tactic(auto, unfolding(crate::specs::Stray::value_keywords))]
fn is_value_keyword(key: &str) -> bool
    ensures { result ≡ is_word value_keywords key.now }
{
    is_word(&VALUE_KEYWORDS, key)
}

/// Reports whether a member of a schema is one of its fields.
#[tactic(auto, unfolding(crate::specs::Keywords::schema_fields))]
fn is_schema_field(key: &str) -> bool
    ensures { result ≡ is_word schema_fields key.now }
{
    is_word(&SCHEMA_FIELDS, key)
}

/// What a member of a schema is in which no schema stands.
fn plain_member(key: &str) -> Part
    ensures { result ≡ plain_member key.now }
{
    if is_value_keyword(key) {
        Part::Values
    } else if is_schema_field(key) {
        Part::Other
    } else {
        Part::Values
    }
}

/// What a member of a schema is.
#[tactic(auto, unfolding(crate::specs::Stray::bool_keywords, crate::specs::Stray::map_keywords, crate::specs::Stray::list_keywords))]
fn schema_member(key: &str) -> Part
    ensures { result ≡ schema_member key.now }
{
    if is_word(&BOOL_KEYWORDS, key) {
        Part::SchemaOrBool
    } else if is_word(&MAP_KEYWORDS, key) {
        Part::SchemaMap
    } else if is_word(&LIST_KEYWORDS, key) {
        Part::SchemaList
    } else if key == "items" {
        Part::SchemaOrList
    } else if key == "not" {
        Part::Schema
    } else if key == "dependencies" {
        Part::Dependencies
    } else {
        plain_member(key)
    }
}

/// This part for a member of this name, else another one.
fn named_part(name: &str, key: &str, part: Part) -> Part
    ensures { result ≡ named_part name.now key.now part }
{
    if key == name { part } else { Part::Other }
}

/// What a member of a part is, by its key.
pub(crate) fn member_part(part: Part, key: &str) -> Part
    ensures { result ≡ member_part part key.now }
{
    match part {
        Part::Document => named_part("spec", key, Part::Spec),
        Part::Spec => named_part("versions", key, Part::Versions),
        Part::Version => named_part("schema", key, Part::Validation),
        Part::Validation => named_part("openAPIV3Schema", key, Part::Schema),
        Part::Schema => schema_member(key),
        Part::SchemaOrBool => schema_member(key),
        Part::SchemaOrList => schema_member(key),
        Part::SchemaOrStrings => schema_member(key),
        Part::SchemaMap => Part::Schema,
        Part::Dependencies => Part::SchemaOrStrings,
        Part::Values => Part::Values,
        Part::Versions | Part::SchemaList | Part::Other => Part::Other,
    }
}

/// What an item of a part is.
pub(crate) fn item_part(part: Part) -> Part
    ensures { result ≡ item_part part }
{
    match part {
        Part::Versions => Part::Version,
        Part::SchemaOrList | Part::SchemaList => Part::Schema,
        Part::Values => Part::Values,
        Part::Document
        | Part::Spec
        | Part::Version
        | Part::Validation
        | Part::Schema
        | Part::SchemaOrBool
        | Part::SchemaOrStrings
        | Part::SchemaMap
        | Part::Dependencies
        | Part::Other => Part::Other,
    }
}

/// Reports whether a member `x-kubernetes-validations` of a part holds none of a schema's own rules,
/// and is neither a name of the user's own nor a part of a value.
pub(crate) fn has_no_rules(part: Part) -> bool
    ensures { result ≡ has_no_rules part }
{
    match part {
        Part::Schema
        | Part::SchemaOrBool
        | Part::SchemaOrList
        | Part::SchemaOrStrings
        | Part::SchemaMap
        | Part::Dependencies
        | Part::Values => false,
        Part::Document
        | Part::Spec
        | Part::Versions
        | Part::Version
        | Part::Validation
        | Part::SchemaList
        | Part::Other => true,
    }
}

/// Reports whether a value has the form of a part.
pub(crate) fn has_form(part: Part, value: &Value) -> bool
    ensures { result ≡ has_form part (view value.now) }
{
    match part {
        Part::Schema | Part::SchemaMap | Part::Dependencies => value.is_object(),
        Part::SchemaOrBool => value.is_object() || value.is_boolean(),
        Part::SchemaOrList | Part::SchemaOrStrings => value.is_object() || value.is_array(),
        Part::SchemaList => value.is_array(),
        Part::Document
        | Part::Spec
        | Part::Versions
        | Part::Version
        | Part::Validation
        | Part::Values
        | Part::Other => true,
    }
}

/// Returns what is wrong with a value that hasn't the form of a part.
pub(crate) fn form_text(part: Part) -> &'static str
    ensures { result.now ≡ form_text part }
{
    match part {
        Part::SchemaList => "the schemas aren't a list",
        Part::SchemaMap | Part::Dependencies => "the schemas by name aren't an object",
        Part::Document
        | Part::Spec
        | Part::Versions
        | Part::Version
        | Part::Validation
        | Part::Schema
        | Part::SchemaOrBool
        | Part::SchemaOrList
        | Part::SchemaOrStrings
        | Part::Values
        | Part::Other => "a schema isn't an object",
    }
}
