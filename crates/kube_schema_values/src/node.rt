//! What binding needs of a schema's node.
ghost use Rattle.std.specs.Prelude.{◌≡◌, option_map, Option};
ghost use Rattle.kube_schema_values.specs.Conversion.{ConversionAccessors, member_node};

use crate::format::SchemaFormat;

/// A node of a schema. `Seen` is its type in definitions,
/// and `accessors` those by which definitions read it.
pub trait Node: Copy {
    ghost Seen: { Type 0 };

    ghost seen: { Self → Seen };

    ghost accessors: { ConversionAccessors Seen };

    /// The node of a member: that of its property, else that of members that aren't declared.
    fn member(&self, name: &str) -> Option<Self>
        ensures { option_map seen result ≡ member_node accessors (seen self.now) name.now };

    /// The node of list items, if any.
    fn items(&self) -> Option<Self>
        ensures { option_map seen result ≡ accessors.items (seen self.now) };

    /// Reports whether the node is a map node, whose objects keep their keys unescaped.
    fn is_map(&self) -> bool
        ensures { result ≡ accessors.is_map (seen self.now) };

    /// Reports whether the objects at the node are embedded resources.
    fn is_embedded(&self) -> bool
        ensures { result ≡ accessors.is_embedded (seen self.now) };

    /// The format by which strings at the node are converted.
    fn format(&self) -> SchemaFormat
        ensures { result ≡ accessors.format (seen self.now) };
}
