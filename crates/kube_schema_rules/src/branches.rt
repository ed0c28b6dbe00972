//! The keywords whose branches all apply to the same value.
ghost use Rattle.kube_schema_rules.specs.Step.{keyword};
ghost use Rattle.std.specs.Prelude.{◌≡◌};

/// A keyword that holds a list of schemas for one value (JSON Schema, "Schema Composition").
#[derive(Clone, Copy, Debug, PartialEq, Eq)]
pub enum BranchKind {
    /// `allOf`.
    AllOf,
    /// `oneOf`.
    OneOf,
    /// `anyOf`.
    AnyOf,
}

impl BranchKind {
    /// Returns the keyword.
    pub fn keyword(self) -> &'static str
        ensures { result.now ≡ keyword self }
    {
        match self {
            BranchKind::AllOf => "allOf",
            BranchKind::OneOf => "oneOf",
            BranchKind::AnyOf => "anyOf",
        }
    }
}
