//! Laws of binding and of defaults by schemas and by their trees,
//! each stated as the contract of a function with an empty body.
ghost use Rattle.std.specs.Prelude.{◌≡◌, ℕ, suc};
ghost use Rattle.serde_json.specs.Data.{Data};
ghost use Rattle.kube_schema.specs.CompiledDefaults as tree_defaults;
ghost use Rattle.kube_schema.specs.Tree.{Node};
ghost use Rattle.kube_schema.specs.View.{view_of};
ghost use Rattle.kube_schema_values.specs.Conversion.{to_cel, raw};
ghost use Rattle.kube_schema_values.specs.Defaults.{FillsMembers, defaulted_value};
ghost use Rattle.kube_schema_values.specs.DefaultsAccessors as schema_defaults;
ghost use Rattle.kube_schema.specs.CompiledConversion.{tree_accessors};

/// The tree of a schema converts each value as the schema does.
pub fn the_tree_binds_alike()
    ensures { (levels : ℕ) (schema value : Data)
        → to_cel raw levels schema value ≡ to_cel tree_accessors levels (view_of levels schema) value }
{}

/// Objects are filled key by key, at every level. A key that the object has holds its member,
/// filled by the schema of that member. Another key holds the default of its property, filled by
/// that property, or is absent if there is no default. The same holds for the tree of a schema.
pub fn objects_are_filled_key_by_key()
    ensures schema { (levels : ℕ) (schema value : Data)
        → FillsMembers schema_defaults.raw levels schema value
        (defaulted_value schema_defaults.raw (suc levels) schema value) }
    ensures tree { (levels : ℕ) (node : Node) (value : Data)
        → FillsMembers tree_defaults.tree_accessors levels node value
        (defaulted_value tree_defaults.tree_accessors (suc levels) node value) }
{}
