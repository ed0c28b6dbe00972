//! What a table keeps of the keywords of a node.
use kube_schema_rules::CompiledRules;
use kube_schema_values::SchemaFormat;
use kube_types::Refused;
use serde_json::Value;
use std::alloc::Global;

/// What a table keeps of the keywords of a node: all that the walk, defaults and binding ask of
/// a node besides the nodes within it.
pub trait NodeKeywords: Drop {
    ghost use Rattle.std.specs.Prelude.{◌≡◌, [], false, is_some, option_map, IfErr, IfOk};
    ghost use Rattle.serde_json.specs.View.{view};
    ghost use Rattle.kube_schema_rules.specs.CompiledRules.{rules_in};
    ghost use Rattle.kube_schema.specs.Tree.{Own};

    /// The keywords in definitions.
    ghost own: { Self → Own };

    /// Returns the compiled rules of the node.
    ///
    /// # Errors
    ///
    /// [`Refused`] if memory is refused.
    fn rules(&self, alloc: Global) -> Result<CompiledRules<'_>, Refused>
        ensures rules { IfOk result (λ r. rules_in r ≡ (own self.now).validations) }
        ensures memory { IfErr result (λ e. e ≡ Refused.Memory) };

    /// Reports whether the node may have rules. The contract only covers false.
    fn may_have_rules(&self) -> bool
        ensures { result ≡ false → (own self.now).validations ≡ [] };

    /// How strings at the node are converted.
    fn string_format(&self) -> SchemaFormat
        ensures { result ≡ (own self.now).format };

    /// Reports whether `additionalProperties` is present and not `false`.
    fn is_map(&self) -> bool
        ensures { result ≡ (own self.now).is_map };

    /// Reports whether `x-kubernetes-preserve-unknown-fields` is `true`.
    fn preserves(&self) -> bool
        ensures { result ≡ (own self.now).preserves };

    /// Reports whether `x-kubernetes-embedded-resource` is `true`.
    fn is_embedded(&self) -> bool
        ensures { result ≡ (own self.now).embedded };

    /// `default`, as it stands in the schema.
    fn default(&self) -> Option<&Value>
        ensures { option_map (λ v. view v.now) result ≡ (own self.now).default };
}
