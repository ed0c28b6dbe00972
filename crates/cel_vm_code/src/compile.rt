//! Compiles trees to code. The code is written from its end to its start, into one list that holds it
//! in reverse: so the lengths that jumps need are known when a jump is written.
ghost use Rattle.std.specs.Prelude.{◌≡◌, ◌≤◌, ◌<◌, ◌-◌, true, false, [], ◌∷◌, ◌++◌, IfOk, IfErr, IfSome, OnOk, map, length, option_map, codes};
ghost use Rattle.cel_value.specs.Data.{map_of, no_entries};
ghost use Rattle.cel_value.specs.View.{view};
ghost use Rattle.cel_syntax_ast.specs.Term.{call, qualified, no_terms, term_and, term, terms_of, pairs_of};
ghost use Rattle.cel_vm_code.specs.Code.{loop_index, load_of, code_of, code_in, codes_in, pairs_in, is_sure, literal_of, one_with, both_with, logic, choice_code, loop, binary_code, macro_code};
ghost use Rattle.cel_vm_code.specs.Op.{op, work_of, operands_of, receivers, begin, branch, form, invoke, push, test_name};
ghost use Rattle.cel_vm_code.specs.CodeViews.{variables, from_end, guard_to, operand_to, operands_to, entries_to};

use crate::instr::{Instr, Operation, Test};
use cel_syntax_ast::{BinaryOperator, Expr, MacroKind};
use cel_value::{Entries, Key, Refused, Text, Value};
use std::alloc::{AllocError, Global};

/// Compiles a tree.
pub fn compile_tree(alloc: Global, expr: &Expr) -> Result<Vec<Instr>, Refused>
    ensures value { IfOk result (λ code. map op code.items ≡ code_of (term expr.now)) }
    ensures memory { IfErr result (λ e. e ≡ Refused.Memory) }
{
    let names = Vec::new(alloc);
    let mut code = Vec::new(alloc);
    write_tree(alloc, names.as_slice(), expr, &mut code)?;
    code.reverse();
    Ok(code)
}

/// Returns how many loops out a name is bound, 0 being the innermost, or None if no loop binds it.
/// `names` are the loops' variables, the innermost last.
fn loop_index(names: &[&str], name: &str) -> Option<usize>
    ensures pc { result ≡ loop_index name.now (variables names.now) }
    ensures few { IfSome result (λ k. k < length names.now) }
{
    match names.split_last() {
        None => None,
        Some((variable, outer)) => {
            if name == *variable {
                Some(0)
            } else {
                match loop_index(outer, name) {
                    Some(outward) => Some(outward + 1),
                    None => None,
                }
            }
        }
    }
}

/// Returns the instruction that loads a name inside loops over these variables.
fn load(names: &[&str], name: &Text) -> Result<Instr, AllocError>
    ensures { IfOk result (λ i. op i ≡ load_of name.now
        (loop_index name.now (variables names.now))) }
{
    match loop_index(names, name.as_str()) {
        Some(outward) => Ok(Instr::LoadItem(outward)),
        None => Ok(Instr::Load(name.clone()?)),
    }
}

/// Returns the variables inside one more loop.
fn with_variable<'n>(
    alloc: Global,
    names: &[&'n str],
    variable: &'n str,
) -> Result<Vec<&'n str>, AllocError>
    ensures { IfOk result (λ all. variables all.items ≡ variable.now ∷ variables names.now) }
{
    let mut all = Vec::new(alloc);
    all.extend_from_slice(names)?;
    all.push(variable)?;
    Ok(all)
}

/// Reports whether the code of a tree is sure to leave a value, never an error: it is a single
/// instruction that pushes a value or loads an item.
fn is_sure(names: &[&str], expr: &Expr) -> bool
    ensures { result ≡ is_sure (code_in (variables names.now) (term expr.now)) }
{
    match expr {
        Expr::Literal(_) => true,
        Expr::Ident(name) => loop_index(names, name.as_str()).is_some(),
        Expr::Select(_, _) => false,
        Expr::Has(_, _) => false,
        Expr::Index(_, _) => false,
        Expr::Unary(_, _) => false,
        Expr::Binary(_, _, _) => false,
        Expr::Cond(_, _, _) => false,
        Expr::List(_) => false,
        Expr::Map(pairs) => pairs.is_empty(),
        Expr::Call { .. } => false,
        Expr::Qualified { .. } => false,
        Expr::Macro { .. } => false,
    }
}

/// The value of a literal, or None for any other tree.
fn literal(expr: &Expr) -> Option<&Value>
    ensures { option_map (λ v. view v.now) result ≡ literal_of (term expr.now) }
{
    match expr {
        Expr::Literal(value) => Some(value),
        _ => None,
    }
}

/// Returns the instruction that pushes an empty map.
fn empty_map(alloc: Global) -> Result<Instr, Refused>
    ensures value { IfOk result (λ i. op i ≡ push (map_of no_entries)) }
    ensures memory { IfErr result (λ e. e ≡ Refused.Memory) }
{
    Ok(Instr::Push(Value::from_entries(alloc, Entries::new(alloc))?))
}

/// Returns the instruction of a call.
fn call_instr(name: &Text, receiver: bool, count: usize) -> Result<Instr, AllocError>
    ensures { IfOk result (λ i. op i ≡ invoke name.now (receivers receiver) count) }
{
    Ok(Instr::Call {
        name: name.clone()?,
        receiver,
        count,
    })
}

/// Returns the number of instructions that were written after the code was `end` long.
fn written_since(end: usize, code: &Vec<Instr>) -> usize
    ensures { result ≡ length (from_end code.now.items) - end }
{
    code.len().saturating_sub(end)
}

/// Writes an instruction in front of the code. Returns how long the code was.
fn write_one(instr: Instr, code: &mut Vec<Instr>) -> Result<usize, AllocError>
    ensures value { OnOk result (from_end code.new.items ≡ op instr ∷ from_end code.old.items) }
    ensures end { IfOk result (λ end. end ≡ length (from_end code.old.items)) }
{
    let end = code.len();
    code.push(instr)?;
    Ok(end)
}

/// Writes the guard that follows an operand over `depth` values, unless the operand is sure.
/// It jumps to where the code is `end` long.
fn write_guard(
    sure: bool,
    depth: usize,
    end: usize,
    code: &mut Vec<Instr>,
) -> Result<(), AllocError>
    ensures { OnOk result (from_end code.new.items ≡ guard_to sure depth end (from_end code.old.items)) }
{
    if sure {
        return Ok(());
    }
    let offset = written_since(end, code);
    write_one(Instr::Guard { depth, offset }, code)?;
    Ok(())
}

/// Writes the instruction that tests a call's form. It jumps to where the code is `end` long.
fn write_form(
    name: &Text,
    receiver: bool,
    count: usize,
    end: usize,
    code: &mut Vec<Instr>,
) -> Result<(), AllocError>
    ensures { OnOk result (from_end code.new.items
        ≡ form name.now receiver count (length (from_end code.old.items) - end)
        ∷ from_end code.old.items) }
{
    let name = name.clone()?;
    let offset = written_since(end, code);
    write_one(
        Instr::Form {
            name,
            receiver,
            count,
            offset,
        },
        code,
    )?;
    Ok(())
}

/// Writes a branch. It jumps to where the code is `middle` long if the test is
/// false, and to where it is `end` long on an error.
fn write_branch(
    test: Test,
    middle: usize,
    end: usize,
    code: &mut Vec<Instr>,
) -> Result<(), AllocError>
    ensures { OnOk result (from_end code.new.items
        ≡ branch (test_name test) (length (from_end code.old.items) - middle)
        (length (from_end code.old.items) - end) ∷ from_end code.old.items) }
{
    let on_false = written_since(middle, code);
    let offset = written_since(end, code);
    write_one(
        Instr::Branch {
            test,
            on_false,
            offset,
        },
        code,
    )?;
    Ok(())
}

/// Writes the start of a loop. It jumps to where the code is `end` long.
fn write_begin(kind: MacroKind, end: usize, code: &mut Vec<Instr>) -> Result<(), AllocError>
    ensures { OnOk result (from_end code.new.items
        ≡ begin kind (length (from_end code.old.items) - end) ∷ from_end code.old.items) }
{
    let offset = written_since(end, code);
    write_one(Instr::Begin { kind, offset }, code)?;
    Ok(())
}

/// Writes the code of a tree inside loops over these variables.
#[cycle(compile)]
fn write_tree<'e>(
    alloc: Global,
    names: &[&'e str],
    expr: &'e Expr,
    code: &mut Vec<Instr>,
) -> Result<(), Refused>
    ensures value { OnOk result (from_end code.new.items
        ≡ code_in (variables names.now) (term expr.now) ++ from_end code.old.items) }
    ensures memory { IfErr result (λ e. e ≡ Refused.Memory) }
{
    match expr {
        Expr::Literal(value) => {
            write_one(Instr::Push(value.try_clone()?), code)?;
            Ok(())
        }
        Expr::Ident(name) => {
            write_one(load(names, name)?, code)?;
            Ok(())
        }
        Expr::Select(operand, name) => {
            let key = Key::String(name.clone()?);
            write_part(alloc, names, Operation::Select(key), operand, code)
        }
        Expr::Has(operand, name) => {
            let key = Key::String(name.clone()?);
            write_part(alloc, names, Operation::Has(key), operand, code)
        }
        Expr::Index(operand, index) => {
            write_parts(alloc, names, Operation::Index, operand, index, code)
        }
        Expr::Unary(operator, operand) => {
            write_part(alloc, names, Operation::Unary(*operator), operand, code)
        }
        Expr::Binary(operator, left, right) => {
            write_binary(alloc, names, *operator, left, right, code)
        }
        Expr::Cond(test, yes, no) => write_choice(alloc, names, test, yes, no, code),
        Expr::List(items) => {
            let end = write_one(Instr::Apply(Operation::List(items.len())), code)?;
            write_operands(alloc, names, items, 0, end, code)
        }
        Expr::Map(pairs) => {
            let end = code.len();
            write_entries(alloc, names, pairs, end, code)?;
            write_one(empty_map(alloc)?, code)?;
            Ok(())
        }
        Expr::Call { target, name, args } => match target {
            None => write_function(alloc, names, name, args, code),
            Some(target) => write_method(alloc, names, target, name, args, code),
        },
        Expr::Qualified { name, args } => write_function(alloc, names, name, args, code),
        Expr::Macro {
            kind,
            range,
            variable,
            filter,
            body,
        } => {
            let inner = with_variable(alloc, names, variable.as_str())?;
            match filter {
                None => {
                    write_loop(alloc, inner.as_slice(), *kind, body, code)?;
                    write_tree(alloc, names, range, code)
                }
                Some(test) => {
                    write_filter(alloc, inner.as_slice(), *kind, test, body, code)?;
                    write_tree(alloc, names, range, code)
                }
            }
        }
    }
}

/// Writes an operand over `depth` values, in a form that ends where the code is `end` long.
#[cycle(compile)]
fn write_operand<'e>(
    alloc: Global,
    names: &[&'e str],
    expr: &'e Expr,
    depth: usize,
    end: usize,
    code: &mut Vec<Instr>,
) -> Result<(), Refused>
    ensures value { OnOk result (from_end code.new.items
        ≡ operand_to (code_in (variables names.now) (term expr.now)) depth end
        (from_end code.old.items)) }
    ensures memory { IfErr result (λ e. e ≡ Refused.Memory) }
{
    write_guard(is_sure(names, expr), depth, end, code)?;
    write_tree(alloc, names, expr, code)
}

/// Writes the code of an operation on one value.
#[cycle(compile)]
fn write_part<'e>(
    alloc: Global,
    names: &[&'e str],
    operation: Operation,
    operand: &'e Expr,
    code: &mut Vec<Instr>,
) -> Result<(), Refused>
    requires { operands_of operation ≡ 1 }
    ensures value { OnOk result (from_end code.new.items
        ≡ one_with (work_of operation) (code_in (variables names.now) (term operand.now))
        ++ from_end code.old.items) }
    ensures memory { IfErr result (λ e. e ≡ Refused.Memory) }
{
    let end = write_one(Instr::Apply(operation), code)?;
    write_operand(alloc, names, operand, 0, end, code)
}

/// Writes the code of an operation on two values.
#[cycle(compile)]
fn write_parts<'e>(
    alloc: Global,
    names: &[&'e str],
    operation: Operation,
    left: &'e Expr,
    right: &'e Expr,
    code: &mut Vec<Instr>,
) -> Result<(), Refused>
    requires { operands_of operation ≡ 2 }
    ensures value { OnOk result (from_end code.new.items
        ≡ both_with (work_of operation) (code_in (variables names.now) (term left.now))
        (code_in (variables names.now) (term right.now)) ++ from_end code.old.items) }
    ensures memory { IfErr result (λ e. e ≡ Refused.Memory) }
{
    let end = write_one(Instr::Apply(operation), code)?;
    write_operand(alloc, names, right, 1, end, code)?;
    write_operand(alloc, names, left, 0, end, code)
}

/// Writes operands, the first over `depth` values.
#[cycle(compile)]
fn write_operands<'e>(
    alloc: Global,
    names: &[&'e str],
    items: &'e Vec<Expr>,
    depth: usize,
    end: usize,
    code: &mut Vec<Instr>,
) -> Result<(), Refused>
    requires { depth ≤ 1 }
    ensures value { OnOk result (from_end code.new.items
        ≡ operands_to (codes_in (variables names.now) (terms_of (map term items.now.items)))
        depth end (from_end code.old.items)) }
    ensures memory { IfErr result (λ e. e ≡ Refused.Memory) }
{
    for k in (0..items.len()).rev() {
        write_operand(alloc, names, &items[k], depth + k, end, code)?;
    }
    Ok(())
}

/// Writes the entries of a map literal.
#[cycle(compile)]
fn write_entries<'e>(
    alloc: Global,
    names: &[&'e str],
    pairs: &'e Vec<(Expr, Expr)>,
    end: usize,
    code: &mut Vec<Instr>,
) -> Result<(), Refused>
    ensures value { OnOk result (from_end code.new.items
        ≡ entries_to (pairs_in (variables names.now)
        (pairs_of (map (λ p. (term p.0, term p.1)) pairs.now.items))) end (from_end code.old.items)) }
    ensures memory { IfErr result (λ e. e ≡ Refused.Memory) }
{
    for k in (0..pairs.len()).rev() {
        let pair = &pairs[k];
        write_guard(false, 0, end, code)?;
        write_one(Instr::Apply(Operation::Put), code)?;
        write_operand(alloc, names, &pair.1, 2, end, code)?;
        write_operand(alloc, names, &pair.0, 1, end, code)?;
    }
    Ok(())
}

/// Writes the code of a binary operator.
#[cycle(compile)]
fn write_binary<'e>(
    alloc: Global,
    names: &[&'e str],
    operator: BinaryOperator,
    left: &'e Expr,
    right: &'e Expr,
    code: &mut Vec<Instr>,
) -> Result<(), Refused>
    ensures value { OnOk result (from_end code.new.items
        ≡ binary_code operator (code_in (variables names.now) (term left.now))
        (code_in (variables names.now) (term right.now)) (literal_of (term right.now))
        ++ from_end code.old.items) }
    ensures memory { IfErr result (λ e. e ≡ Refused.Memory) }
{
    match operator {
        BinaryOperator::Or => write_logic(alloc, names, true, left, right, code),
        BinaryOperator::And => write_logic(alloc, names, false, left, right, code),
        _ => match literal(right) {
            None => write_parts(alloc, names, Operation::Binary(operator), left, right, code),
            Some(value) => {
                let operation = Operation::WithLiteral(operator, value.try_clone()?);
                write_part(alloc, names, operation, left, code)
            }
        },
    }
}

/// Writes the code of `&&` or `||`; `stop` is the bool that decides the operator.
#[cycle(compile)]
fn write_logic<'e>(
    alloc: Global,
    names: &[&'e str],
    stop: bool,
    left: &'e Expr,
    right: &'e Expr,
    code: &mut Vec<Instr>,
) -> Result<(), Refused>
    ensures value { OnOk result (from_end code.new.items
        ≡ logic stop (code_in (variables names.now) (term left.now))
        (code_in (variables names.now) (term right.now)) ++ from_end code.old.items) }
    ensures memory { IfErr result (λ e. e ≡ Refused.Memory) }
{
    let end = write_one(Instr::Join(stop), code)?;
    write_tree(alloc, names, right, code)?;
    let offset = written_since(end, code);
    write_one(Instr::Absorb { stop, offset }, code)?;
    write_tree(alloc, names, left, code)
}

/// Writes the code of a condition and its two branches.
#[cycle(compile)]
fn write_choice<'e>(
    alloc: Global,
    names: &[&'e str],
    test: &'e Expr,
    yes: &'e Expr,
    no: &'e Expr,
    code: &mut Vec<Instr>,
) -> Result<(), Refused>
    ensures value { OnOk result (from_end code.new.items
        ≡ choice_code (codes "?:") (code_in (variables names.now) (term test.now))
        (code_in (variables names.now) (term yes.now)) (code_in (variables names.now) (term no.now))
        ++ from_end code.old.items) }
    ensures memory { IfErr result (λ e. e ≡ Refused.Memory) }
{
    let end = code.len();
    write_tree(alloc, names, no, code)?;
    let skipped = written_since(end, code);
    let middle = write_one(Instr::Skip(skipped), code)?;
    write_tree(alloc, names, yes, code)?;
    write_branch(Test::Condition, middle, end, code)?;
    write_tree(alloc, names, test, code)
}

/// Writes the code of a call without a receiver.
#[cycle(compile)]
fn write_function<'e>(
    alloc: Global,
    names: &[&'e str],
    name: &Text,
    args: &'e Vec<Expr>,
    code: &mut Vec<Instr>,
) -> Result<(), Refused>
    ensures value { OnOk result (from_end code.new.items
        ≡ code_in (variables names.now)
        (qualified name.now (terms_of (map term args.now.items)))
        ++ from_end code.old.items) }
    ensures memory { IfErr result (λ e. e ≡ Refused.Memory) }
{
    let count = args.len();
    let end = write_one(call_instr(name, false, count)?, code)?;
    write_operands(alloc, names, args, 0, end, code)?;
    Ok(write_form(name, false, count, end, code)?)
}

/// Writes the code of a call with a receiver.
#[cycle(compile)]
fn write_method<'e>(
    alloc: Global,
    names: &[&'e str],
    target: &'e Expr,
    name: &Text,
    args: &'e Vec<Expr>,
    code: &mut Vec<Instr>,
) -> Result<(), Refused>
    ensures value { OnOk result (from_end code.new.items
        ≡ code_in (variables names.now) (call (term_and (term target.now) no_terms)
        name.now (terms_of (map term args.now.items))) ++ from_end code.old.items) }
    ensures memory { IfErr result (λ e. e ≡ Refused.Memory) }
{
    let count = args.len();
    let end = write_one(call_instr(name, true, count)?, code)?;
    write_operands(alloc, names, args, 1, end, code)?;
    write_operand(alloc, names, target, 0, end, code)?;
    Ok(write_form(name, true, count, end, code)?)
}

/// Writes the loop of a macro without a filter, over a range that is still to be written.
#[cycle(compile)]
fn write_loop<'e>(
    alloc: Global,
    names: &[&'e str],
    kind: MacroKind,
    body: &'e Expr,
    code: &mut Vec<Instr>,
) -> Result<(), Refused>
    ensures value { OnOk result (from_end code.new.items
        ≡ loop kind false [] (code_in (variables names.now) (term body.now))
        ++ from_end code.old.items) }
    ensures memory { IfErr result (λ e. e ≡ Refused.Memory) }
{
    let end = write_one(
        Instr::Next {
            kind,
            filtered: false,
        },
        code,
    )?;
    write_tree(alloc, names, body, code)?;
    Ok(write_begin(kind, end, code)?)
}

/// Writes the loop of a macro with a filter. Only `map` uses the filter.
#[cycle(compile)]
fn write_filter<'e>(
    alloc: Global,
    names: &[&'e str],
    kind: MacroKind,
    test: &'e Expr,
    body: &'e Expr,
    code: &mut Vec<Instr>,
) -> Result<(), Refused>
    ensures value { OnOk result (from_end code.new.items
        ≡ macro_code kind [] (code_in (variables names.now) (term test.now) ∷ [])
        (code_in (variables names.now) (term body.now)) ++ from_end code.old.items) }
    ensures memory { IfErr result (λ e. e ≡ Refused.Memory) }
{
    match kind {
        MacroKind::Map => {
            let next = Instr::Next {
                kind,
                filtered: true,
            };
            let last = write_one(next, code)?;
            let end = write_one(Instr::Push(Value::Bool(false)), code)?;
            let middle = write_one(Instr::Skip(1), code)?;
            let kept = write_one(Instr::Push(Value::Bool(true)), code)?;
            write_operand(alloc, names, body, 0, kept, code)?;
            write_branch(Test::Filter, middle, end, code)?;
            write_tree(alloc, names, test, code)?;
            Ok(write_begin(kind, last, code)?)
        }
        _ => write_loop(alloc, names, kind, body, code),
    }
}
