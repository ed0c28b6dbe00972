//! Keywords that are read from the schema when they are asked for.
use crate::LEVELS;
use crate::keywords::{default_in, format_of, is_embedded, is_map, keywords_with, preserves};
use crate::node_keywords::NodeKeywords;
use crate::nodes::Keywords;
use kube_schema_rules::{CompiledRules, NodeRules, rule_values};
use kube_schema_values::SchemaFormat;
use kube_types::Refused;
use serde_json::Value;
use std::alloc::Global;

/// The keywords of a node, as its schema has them or read.
#[derive(Debug, Drop)]
pub enum SourceKeywords<'s> {
    /// A schema, and its default.
    Unread(&'s Value, Option<&'s Value>),
    /// Keywords that are read.
    Read(Keywords),
    /// The default of a schema beyond the maximum depth.
    TooDeep(Option<&'s Value>),
}

impl<'s> SourceKeywords<'s> {
    ghost use Rattle.std.specs.Prelude.{◌≡◌, IfErr, IfSome, option_map};
    ghost use Rattle.serde_json.specs.View.{view};
    ghost use Rattle.kube_schema.specs.Source.{own_with, source_own};
    ghost use Rattle.kube_schema.specs.View.{own_view, marker_view};

    // The keywords of a schema.
    #[tactic(auto, unfolding(crate::specs::View::own_view))]
    pub(crate) fn of(schema: &'s Value) -> SourceKeywords<'s>
        ensures { source_own result ≡ own_view (view schema.now) }
    {
        SourceKeywords::Unread(schema, default_in(schema))
    }

    // The keywords of the marker of a schema beyond the maximum depth.
    #[tactic(auto, unfolding(crate::specs::View::marker_view))]
    pub(crate) fn marker(schema: &'s Value) -> SourceKeywords<'s>
        ensures { source_own result ≡ marker_view (view schema.now) }
    {
        SourceKeywords::TooDeep(default_in(schema))
    }

    // The schema and its default, if they aren't read.
    fn unread(&self) -> Option<(&'s Value, Option<&'s Value>)>
        ensures { IfSome result (λ p. source_own self.now
            ≡ own_with (view p.0.now) (option_map (λ v. view v.now) p.1)) }
    {
        match self {
            SourceKeywords::Unread(schema, default) => Some((*schema, *default)),
            SourceKeywords::Read(_) => None,
            SourceKeywords::TooDeep(_) => None,
        }
    }

    // Reads the keywords and compiles the rules, unless that is done. Nothing changes if memory is refused.
    pub(crate) fn compile(&mut self, alloc: Global) -> Result<(), Refused>
        ensures same { source_own self.new ≡ source_own self.old }
        ensures memory { IfErr result (λ e. e ≡ Refused.Memory) }
    {
        let Some((schema, default)) = self.unread() else {
            return Ok(());
        };
        let keywords = keywords_with(alloc, schema, default)?;
        *self = SourceKeywords::Read(keywords);
        Ok(())
    }
}

impl NodeKeywords for SourceKeywords<'_> {
    ghost use Rattle.kube_schema.specs.Source.{source_own};

    ghost own = { source_own };

    #[tactic(auto, unfolding(crate::specs::View::own_view, crate::specs::View::marker_view))]
    fn rules(&self, alloc: Global) -> Result<CompiledRules<'_>, Refused> {
        match self {
            SourceKeywords::Unread(schema, _) => {
                let rules = NodeRules::of_schema(alloc, schema)?;
                Ok(CompiledRules::Made(rules))
            }
            SourceKeywords::Read(keywords) => keywords.rules(alloc),
            SourceKeywords::TooDeep(_) => {
                let rules = NodeRules::too_deep(alloc, LEVELS)?;
                Ok(CompiledRules::Made(rules))
            }
        }
    }

    #[tactic(auto, unfolding(crate::specs::View::own_view))]
    fn may_have_rules(&self) -> bool {
        match self {
            SourceKeywords::Unread(schema, _) => !rule_values(schema).is_empty(),
            SourceKeywords::Read(keywords) => keywords.may_have_rules(),
            SourceKeywords::TooDeep(_) => true,
        }
    }

    #[tactic(auto, unfolding(crate::specs::View::own_view, crate::specs::View::marker_view))]
    fn string_format(&self) -> SchemaFormat {
        match self {
            SourceKeywords::Unread(schema, _) => format_of(schema),
            SourceKeywords::Read(keywords) => keywords.string_format(),
            SourceKeywords::TooDeep(_) => SchemaFormat::None,
        }
    }

    #[tactic(auto, unfolding(crate::specs::View::own_view, crate::specs::View::marker_view))]
    fn is_map(&self) -> bool {
        match self {
            SourceKeywords::Unread(schema, _) => is_map(schema),
            SourceKeywords::Read(keywords) => keywords.is_map(),
            SourceKeywords::TooDeep(_) => false,
        }
    }

    #[tactic(auto, unfolding(crate::specs::View::own_view, crate::specs::View::marker_view))]
    fn preserves(&self) -> bool {
        match self {
            SourceKeywords::Unread(schema, _) => preserves(schema),
            SourceKeywords::Read(keywords) => keywords.preserves(),
            SourceKeywords::TooDeep(_) => false,
        }
    }

    #[tactic(auto, unfolding(crate::specs::View::own_view, crate::specs::View::marker_view))]
    fn is_embedded(&self) -> bool {
        match self {
            SourceKeywords::Unread(schema, _) => is_embedded(schema),
            SourceKeywords::Read(keywords) => keywords.is_embedded(),
            SourceKeywords::TooDeep(_) => false,
        }
    }

    #[tactic(auto, unfolding(crate::specs::View::own_view, crate::specs::View::marker_view))]
    fn default(&self) -> Option<&Value> {
        match self {
            SourceKeywords::Unread(_, default) => *default,
            SourceKeywords::Read(keywords) => keywords.default(),
            SourceKeywords::TooDeep(default) => *default,
        }
    }
}
