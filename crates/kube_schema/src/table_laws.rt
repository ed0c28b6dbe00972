//! Laws of compiled schemas, each stated as the contract of a function with an empty body.
ghost use Rattle.std.specs.Prelude.{◌≡◌, ℕ};
ghost use Rattle.serde_json.specs.Data.{Data};
ghost use Rattle.kube_schema_values.specs.DefaultsAccessors.{raw};
ghost use Rattle.kube_schema_values.specs.Defaults.{defaulted_value};
ghost use Rattle.kube_schema.specs.CompiledDefaults.{tree_accessors};
ghost use Rattle.kube_schema.specs.View.{view_of};

/// The tree of a schema fills each value as the schema does.
pub fn the_tree_fills_alike()
    ensures { (levels : ℕ) (schema value : Data)
        → defaulted_value raw levels schema value
        ≡ defaulted_value tree_accessors levels (view_of levels schema) value }
{}
