//! Laws of binding and of formats, each stated as the
//! contract of a function that does nothing or only compares.
ghost use Rattle.std.specs.Prelude.{◌≡◌, ◌≤◌, ◌↔◌, ℕ, List, option_map, IsTrue};
ghost use Rattle.base64.specs.Engines.{standard};
ghost use Rattle.base64.specs.GeneralPurpose.{encode_of, IsBytes};
ghost use Rattle.serde_json.specs.Data.{Data as Json, Members};
ghost use Rattle.serde_json.specs.Find.{get_member};
ghost use Rattle.cel_value.specs.Data.{bytes, text_key};
ghost use Rattle.cel_value.specs.Find.{find};
ghost use Rattle.kube_schema_values.specs.Plain.{plain};
ghost use Rattle.kube_schema_values.specs.Conversion.{to_cel, levels, member_by, member_key, members_by, object_by, or_else, raw};
ghost use Rattle.kube_schema_values.specs.Fields.{field_besides};
ghost use Rattle.kube_schema_values.specs.Node.{is_embedded};
ghost use Rattle.kube_schema_values.specs.Formats.{bytes_or_text};
ghost use Rattle.kube_schema_values.specs.declared.format.SchemaFormat.TheVariants as format;

use crate::format::SchemaFormat;

/// From depth 65 on, values are converted plainly, whatever the schema.
pub fn deep_values_are_plain()
    ensures { (depth : ℕ) (schema value : Json) → 65 ≤ depth
        → to_cel raw (levels depth) schema value ≡ plain value }
{}

/// At the key of each member of an object stands that member, bound, and at the key of any other
/// name stands nothing, whether keys are escaped or not: the keys of different members differ.
pub fn members_are_found()
    ensures { (left : ℕ) (schema : Json) (members : Members) (name : List ℕ)
        → find (text_key (member_key raw schema name)) (members_by raw (to_cel raw left) schema members)
        ≡ option_map (member_by raw (to_cel raw left) schema name) (get_member name members) }
{}

/// What stands at the key of each name in a bound object: the object's
/// own member, else the field that an embedded resource always has.
pub fn fields_are_found()
    ensures { (left : ℕ) (schema : Json) (members : Members) (name : List ℕ)
        → find (text_key (member_key raw schema name)) (object_by raw (to_cel raw left) schema members)
        ≡ or_else (option_map (member_by raw (to_cel raw left) schema name) (get_member name members))
        (field_besides (is_embedded schema) name) }
{}

/// A string of format `byte` is converted to given bytes exactly if it is their padded encoding.
pub fn bytes_are_encoded()
    ensures { (encoded decoded_bytes : List ℕ) → IsBytes encoded → IsBytes decoded_bytes
        → (bytes_or_text encoded ≡ bytes decoded_bytes) ↔ (encoded ≡ encode_of standard decoded_bytes) }
{}

/// Two formats are equal exactly if they are the same variant.
pub fn equal_formats(a: SchemaFormat, b: SchemaFormat) -> bool
    ensures { IsTrue result ↔ (a ≡ b) }
{
    a == b
}

/// The default format keeps strings as they are.
pub fn default_format() -> SchemaFormat
    ensures { result ≡ format.None }
{
    SchemaFormat::default()
}
