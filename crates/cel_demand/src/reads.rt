//! What an expression reads of the values of its free names.
ghost use Rattle.std.specs.Prelude.{◌≡◌, IfOk, OnOk, map};
ghost use Rattle.cel_syntax_ast.specs.Term.{term, terms_of, pairs_of};
ghost use Rattle.cel_demand.specs.Demand.{part_of, members_view};
ghost use Rattle.cel_demand.specs.Part.{each_item, both, part_at};
ghost use Rattle.cel_demand.specs.Reads.{reads, all_reads, pair_reads, reads_of, kept_part, body_part};

use crate::both::{add_member, add_others, both, demand_at, in_items};
use crate::demand::{Demand, one_member};
use cel_syntax_ast::{Expr, MacroKind};
use cel_value::Text;
use std::alloc::{AllocError, Global};

/// Returns the free names of an expression, each once and in the
/// order of their bytes, with the demands on their values.
///
/// # Errors
///
/// [`AllocError`] if memory is refused.
pub fn demands_of(alloc: Global, expr: &Expr) -> Result<Vec<(Text, Demand)>, AllocError>
    ensures names { IfOk result (λ es. members_view es.items ≡ reads_of (term expr.now)) }
{
    let mut names = Vec::new(alloc);
    add_reads(alloc, expr, &Demand::Whole, &mut names)?;
    Ok(names)
}

/// Returns the demand on each item that a macro puts
/// into its result, from the demand on the result.
fn kept_demand(alloc: Global, kind: MacroKind, demand: &Demand) -> Result<Demand, AllocError>
    ensures kept { IfOk result (λ d. part_of d ≡ kept_part kind (part_of demand.now)) }
{
    match kind {
        MacroKind::Filter => in_items(alloc, demand),
        MacroKind::All | MacroKind::Exists | MacroKind::ExistsOne | MacroKind::Map => {
            Ok(Demand::Nothing)
        }
    }
}

/// Returns the demand on the value of a macro's body, from the demand on the macro's result.
fn body_demand(alloc: Global, kind: MacroKind, demand: &Demand) -> Result<Demand, AllocError>
    ensures body { IfOk result (λ d. part_of d ≡ body_part kind (part_of demand.now)) }
{
    match kind {
        MacroKind::Map => in_items(alloc, demand),
        MacroKind::All | MacroKind::Exists | MacroKind::ExistsOne | MacroKind::Filter => {
            Ok(Demand::Whole)
        }
    }
}

/// Returns the demand on a macro's range: the number of its items, and of
/// each item what the macro keeps and what is read of its variable inside.
fn range_demand(
    alloc: Global,
    kept: &Demand,
    variable: &str,
    inside: &Vec<(Text, Demand)>,
) -> Result<Demand, AllocError>
    ensures range { IfOk result (λ d. part_of d
        ≡ each_item (both (part_of kept.now) (part_at variable.now (members_view inside.now.items)))) }
{
    let item = demand_at(alloc, variable, inside)?;
    Ok(Demand::Items(Box::new(alloc, both(alloc, kept, &item)?)?))
}

/// Adds what an expression reads, if this is the demand on its value.
#[cycle(reads)]
fn add_reads(
    alloc: Global,
    expr: &Expr,
    demand: &Demand,
    names: &mut Vec<(Text, Demand)>,
) -> Result<(), AllocError>
    ensures added { OnOk result (members_view names.new.items
        ≡ reads (term expr.now) (part_of demand.now) (members_view names.old.items)) }
{
    match expr {
        Expr::Literal(_) => Ok(()),
        Expr::Ident(name) => add_member(alloc, names, name, demand),
        Expr::Select(operand, name) => {
            let map = Demand::Members(one_member(alloc, name, demand.copy(alloc)?)?);
            add_reads(alloc, operand, &map, names)
        }
        Expr::Has(operand, name) => {
            let map = Demand::Members(one_member(alloc, name, Demand::Nothing)?);
            add_reads(alloc, operand, &map, names)
        }
        Expr::Index(operand, index) => {
            add_reads(alloc, operand, &Demand::Whole, names)?;
            add_reads(alloc, index, &Demand::Whole, names)
        }
        Expr::Unary(_, operand) => add_reads(alloc, operand, &Demand::Whole, names),
        Expr::Binary(_, left, right) => {
            add_reads(alloc, left, &Demand::Whole, names)?;
            add_reads(alloc, right, &Demand::Whole, names)
        }
        Expr::Cond(test, yes, no) => {
            add_reads(alloc, test, &Demand::Whole, names)?;
            add_reads(alloc, yes, demand, names)?;
            add_reads(alloc, no, demand, names)
        }
        Expr::List(items) => add_all_reads(alloc, items, names),
        Expr::Map(pairs) => add_pair_reads(alloc, pairs, names),
        Expr::Call {
            target,
            name: _,
            args,
        } => {
            if let Some(target) = target {
                add_reads(alloc, target, &Demand::Whole, names)?;
            }
            add_all_reads(alloc, args, names)
        }
        Expr::Qualified { name: _, args } => add_all_reads(alloc, args, names),
        Expr::Macro {
            kind,
            range,
            variable,
            filter,
            body,
        } => {
            let mut inside = Vec::new(alloc);
            if let Some(filter) = filter {
                add_reads(alloc, filter, &Demand::Whole, &mut inside)?;
            }
            let value = body_demand(alloc, *kind, demand)?;
            add_reads(alloc, body, &value, &mut inside)?;
            let kept = kept_demand(alloc, *kind, demand)?;
            let items = range_demand(alloc, &kept, variable.as_str(), &inside)?;
            add_others(alloc, names, variable.as_str(), &inside)?;
            add_reads(alloc, range, &items, names)
        }
    }
}

/// Adds what these expressions read.
#[cycle(reads)]
fn add_all_reads(
    alloc: Global,
    items: &Vec<Expr>,
    names: &mut Vec<(Text, Demand)>,
) -> Result<(), AllocError>
    ensures added { OnOk result (members_view names.new.items
        ≡ all_reads (terms_of (map term items.now.items)) (members_view names.old.items)) }
{
    for item in items {
        add_reads(alloc, item, &Demand::Whole, names)?;
    }
    Ok(())
}

/// Adds what these keys and values read.
#[cycle(reads)]
fn add_pair_reads(
    alloc: Global,
    pairs: &Vec<(Expr, Expr)>,
    names: &mut Vec<(Text, Demand)>,
) -> Result<(), AllocError>
    ensures added { OnOk result (members_view names.new.items
        ≡ pair_reads (pairs_of (map (λ p. (term p.0, term p.1)) pairs.now.items))
        (members_view names.old.items)) }
{
    for pair in pairs {
        add_reads(alloc, &pair.0, &Demand::Whole, names)?;
        add_reads(alloc, &pair.1, &Demand::Whole, names)?;
    }
    Ok(())
}
