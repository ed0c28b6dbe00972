//! Answers rows about the parts that validation is built on. For the language: texts, expressions,
//! patterns, names of fields, and values of all types. For schemas: compiled nodes, rules, defaults,
//! and objects bound by their schema. [`made`] makes expressions, names and texts from a grammar, and
//! asks about them what the fields of rows ask, by the same functions.

pub(crate) mod answers;
pub(crate) mod bound;
pub(crate) mod filled;
pub(crate) mod items;
pub(crate) mod made;
pub(crate) mod names;
pub(crate) mod nodes;
pub(crate) mod outline;
pub(crate) mod patterns;
pub(crate) mod rules;
pub(crate) mod shown;
pub(crate) mod sources;
pub(crate) mod tokens;
pub(crate) mod values;
pub(crate) mod ways;
