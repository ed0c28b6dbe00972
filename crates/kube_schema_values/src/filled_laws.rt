//! Laws of defaults, each stated as the contract of a function with an empty body.
ghost use Rattle.std.specs.Prelude.{◌≡◌, ℕ};
ghost use Rattle.serde_json.specs.Data.{Data};
ghost use Rattle.kube_schema_values.specs.DefaultsAccessors.{raw};
ghost use Rattle.kube_schema_values.specs.Defaults.{defaulted_value};
ghost use Rattle.kube_schema_values.specs.Preserved.{Keeps};
ghost use Rattle.kube_schema_values.specs.Without.{HasNoDefaults};

/// Filling a value that is already filled changes nothing.
pub fn filled_twice_is_filled_once()
    ensures { (levels : ℕ) (schema value : Data)
        → defaulted_value raw levels schema (defaulted_value raw levels schema value)
        ≡ defaulted_value raw levels schema value }
{}

/// Filling keeps what is there: each path into the value leads to
/// the same as before, except that objects may have more members.
pub fn what_is_there_stays()
    ensures { (levels : ℕ) (schema value : Data) → Keeps value (defaulted_value raw levels schema value) }
{}

/// If no default lies within a schema, filling changes nothing.
pub fn without_defaults_all_stays()
    ensures { (levels : ℕ) (schema value : Data) → HasNoDefaults raw levels schema
        → defaulted_value raw levels schema value ≡ value }
{}
