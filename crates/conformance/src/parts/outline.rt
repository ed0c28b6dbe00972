//! Prints trees as outlines: one line for each node, with its parts below it, indented by two
//! blanks.

use cel::{BinaryOperator, Expr, MacroKind, UnaryOperator, Value};
use conformance_rows::Output;
use std::fmt::Display;

/// The symbol of a binary operator.
fn operator_text(operator: BinaryOperator) -> &'static str {
    match operator {
        BinaryOperator::Or => "||",
        BinaryOperator::And => "&&",
        BinaryOperator::Less => "<",
        BinaryOperator::LessOrEqual => "<=",
        BinaryOperator::Greater => ">",
        BinaryOperator::GreaterOrEqual => ">=",
        BinaryOperator::Equal => "==",
        BinaryOperator::NotEqual => "!=",
        BinaryOperator::In => "in",
        BinaryOperator::Add => "+",
        BinaryOperator::Subtract => "-",
        BinaryOperator::Multiply => "*",
        BinaryOperator::Divide => "/",
        BinaryOperator::Remainder => "%",
    }
}

/// The words of a macro's line before the variable: `macro` and the macro's name.
fn macro_name(kind: MacroKind) -> &'static str {
    match kind {
        MacroKind::All => "macro all ",
        MacroKind::Exists => "macro exists ",
        MacroKind::ExistsOne => "macro exists_one ",
        MacroKind::Map => "macro map ",
        MacroKind::Filter => "macro filter ",
    }
}

/// The words of a node's line: what it is, and its name. The line of a literal is written
/// separately.
fn words_of(expr: &Expr) -> (&str, &str) {
    match expr {
        Expr::Literal(_) => ("", ""),
        Expr::Ident(name) => ("name ", name.as_str()),
        Expr::Select(_, name) => ("select ", name.as_str()),
        Expr::Has(_, name) => ("has ", name.as_str()),
        Expr::Index(_, _) => ("index", ""),
        Expr::Unary(UnaryOperator::Not, _) => ("not", ""),
        Expr::Unary(UnaryOperator::Negate, _) => ("negate", ""),
        Expr::Binary(operator, _, _) => (operator_text(*operator), ""),
        Expr::Cond(_, _, _) => ("conditional", ""),
        Expr::List(_) => ("list", ""),
        Expr::Map(_) => ("map", ""),
        Expr::Call {
            target: Some(_),
            name,
            ..
        } => ("method call ", name.as_str()),
        Expr::Call { name, .. } => ("call ", name.as_str()),
        Expr::Qualified { name, .. } => ("qualified call ", name.as_str()),
        Expr::Macro { kind, variable, .. } => (macro_name(*kind), variable.as_str()),
    }
}

/// Writes a word, and what a value prints.
fn write_shown<T: Display>(word: &str, value: &T, out: &mut Output) {
    out.push(word);
    out.show(value);
}

/// Writes a literal. For a double no number is written.
fn write_literal(value: &Value, out: &mut Output) {
    match value {
        Value::Null => out.push("null"),
        Value::Bool(value) => write_shown("bool ", value, out),
        Value::Int(number) => write_shown("int ", number, out),
        Value::UInt(number) => write_shown("uint ", number, out),
        Value::Float => out.push("double"),
        Value::String(text) => out.push_all(&["string \"", text.as_str(), "\""]),
        Value::Bytes(bytes) => {
            out.push("bytes");
            out.push_bytes(bytes.as_slice());
        }
        _ => out.push("a value that no text writes"),
    }
}

/// Writes the line of a node.
fn write_line(expr: &Expr, depth: usize, out: &mut Output) {
    let (what, name) = words_of(expr);
    out.push_indented(depth, &[what, name]);
    if let Expr::Literal(value) = expr {
        write_literal(value, out);
    }
}

/// Writes a node, and its parts below it.
#[cycle(outline)]
pub(crate) fn write_node(expr: &Expr, depth: usize, out: &mut Output) {
    write_line(expr, depth, out);
    let below = depth.saturating_add(1);
    match expr {
        Expr::Literal(_) | Expr::Ident(_) => {}
        Expr::Select(operand, _) | Expr::Has(operand, _) | Expr::Unary(_, operand) => {
            write_node(operand, below, out);
        }
        Expr::Index(left, right) | Expr::Binary(_, left, right) => {
            write_node(left, below, out);
            write_node(right, below, out);
        }
        Expr::Cond(test, yes, no) => {
            write_node(test, below, out);
            write_node(yes, below, out);
            write_node(no, below, out);
        }
        Expr::Map(pairs) => write_entries(pairs, below, out),
        Expr::Call { target, args, .. } => {
            if let Some(target) = target {
                write_node(target, below, out);
            }
            write_nodes(args, below, out);
        }
        Expr::List(args) | Expr::Qualified { args, .. } => write_nodes(args, below, out),
        Expr::Macro {
            range,
            filter,
            body,
            ..
        } => {
            write_node(range, below, out);
            if let Some(filter) = filter {
                write_node(filter, below, out);
            }
            write_node(body, below, out);
        }
    }
}

/// Writes nodes in order.
#[cycle(outline)]
fn write_nodes(items: &Vec<Expr>, depth: usize, out: &mut Output) {
    for item in items {
        write_node(item, depth, out);
    }
}

/// Writes the entries of a map: for each the key, then the value.
#[cycle(outline)]
fn write_entries(pairs: &Vec<(Expr, Expr)>, depth: usize, out: &mut Output) {
    let below = depth.saturating_add(1);
    for pair in pairs {
        out.push_indented(depth, &["entry"]);
        write_node(&pair.0, below, out);
        write_node(&pair.1, below, out);
    }
}
