//! Nodes as stored in the table of a compiled schema.
use crate::node_keywords::NodeKeywords;
use kube_schema_rules::NodeRules;
use kube_schema_values::SchemaFormat;
use serde_json::Value;

// The index of a node in its table.
#[derive(Clone, Copy, Debug, PartialEq, Eq)]
pub struct NodeId(pub usize);

// A property's name and its node.
#[derive(Debug, Drop)]
pub struct PropertyLink {
    pub name: String,
    pub node: NodeId,
}

// The keywords of a node's own schema.
#[derive(Debug, Drop)]
pub struct Keywords {
    pub validations: NodeRules,
    pub format: SchemaFormat,
    pub is_map: bool,
    pub preserve_unknown_fields: bool,
    pub embedded_resource: bool,
    pub max_length: Option<u64>,
    pub max_items: Option<u64>,
    pub max_properties: Option<u64>,
    pub default: Option<Value>,
}

// The nodes within a node. Properties are sorted by name.
#[derive(Debug, Drop)]
pub struct Children {
    pub properties: Vec<PropertyLink>,
    pub items: Option<NodeId>,
    pub additional: Option<NodeId>,
    pub all_of: Vec<NodeId>,
    pub one_of: Vec<NodeId>,
    pub any_of: Vec<NodeId>,
}

#[derive(Debug, Drop)]
pub struct TableNode<K: NodeKeywords> {
    pub keywords: K,
    pub children: Children,
}
