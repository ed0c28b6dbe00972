//! The operators on values.
ghost use Rattle.std.specs.Prelude.{◌≡◌, IfOk, Ok, Err, option_map, not};
ghost use Rattle.std.specs.Option.{option_map_or};
ghost use Rattle.std.specs.Cmp.Lexicographic.{slice_cmp};
ghost use Rattle.std.specs.Ordering.{nat_cmp};
ghost use Rattle.cel_value.specs.Data.{bool, int, text};
ghost use Rattle.cel_value.specs.Faults.{fault_view, no_overload};
ghost use Rattle.cel_value.specs.View.{view};
ghost use Rattle.cel_semantics.specs.Operators.{negation, operator_text, holds_of, order_test, relation_outcome, unary_outcome, binary_outcome};
ghost use Rattle.cel_semantics.specs.Outcome.{no_doubles, outcome_view};
ghost use Rattle.cel_semantics.specs.Progress.{Absorbs};

use crate::arithmetic::{
    add, add_ints, divide, divide_ints, join_texts, multiply, multiply_ints, negate, remainder,
    remainder_of_ints, subtract, subtract_ints,
};
use crate::members::is_in;
use cel_syntax_ast::{BinaryOperator, UnaryOperator};
use cel_value::{ExecutionError, Refused, Value};
use std::alloc::Global;
use std::cmp::Ordering;

/// The outcome of an evaluation: a value, or an error.
pub type Answer = Result<Value, ExecutionError>;

/// Returns the error of an operator, a macro or a function that doesn't take values of these kinds.
///
/// # Errors
/// Only [`Refused::Memory`], if memory is refused.
pub fn no_such_overload(alloc: Global, name: &str) -> Result<ExecutionError, Refused>
    ensures value { IfOk result (λ e. fault_view e ≡ no_overload name.now) }
{
    Ok(ExecutionError::NoSuchOverload(String::from_str(alloc, name)?))
}

/// Returns the error of an operator or a function whose operand holds a double.
pub(crate) fn double_fault(alloc: Global) -> Result<ExecutionError, Refused>
    ensures value { IfOk result (λ e. fault_view e ≡ no_doubles) }
{
    Ok(ExecutionError::UndeclaredReference(String::from_str(alloc, "double")?))
}

/// Whether the operands seen so far decide `&&`, `||` or a macro.
#[derive(Drop)]
pub enum Progress {
    /// One of them decides.
    Decided,
    /// None of them decides. Holds the first error among them, if any.
    Open(Option<ExecutionError>),
}

/// Takes the next operand of `&&`, `||` or a macro. The bool `stop` decides;
/// `fault` is the first error of the operands before.
///
/// # Errors
/// Only [`Refused::Memory`], if memory is refused.
pub fn absorb(
    alloc: Global,
    stop: bool,
    name: &str,
    fault: Option<ExecutionError>,
    answer: Answer,
) -> Result<Progress, Refused>
    ensures value { IfOk result
        (λ p. Absorbs stop name.now (option_map fault_view fault) (outcome_view answer) p) }
{
    match answer {
        Ok(value) => absorb_value(alloc, stop, name, fault, &value),
        Err(e) => match fault {
            Some(first) => Ok(Progress::Open(Some(first))),
            None => Ok(Progress::Open(Some(e))),
        },
    }
}

fn absorb_value(
    alloc: Global,
    stop: bool,
    name: &str,
    fault: Option<ExecutionError>,
    value: &Value,
) -> Result<Progress, Refused>
    ensures value { IfOk result
        (λ p. Absorbs stop name.now (option_map fault_view fault) (Ok (view value.now)) p) }
{
    match value {
        Value::Bool(b) => {
            if *b == stop {
                Ok(Progress::Decided)
            } else {
                Ok(Progress::Open(fault))
            }
        }
        _ => match fault {
            Some(first) => Ok(Progress::Open(Some(first))),
            None => Ok(Progress::Open(Some(no_such_overload(alloc, name)?))),
        },
    }
}

/// Returns the outcome if no operand decides: the first error, or the other bool.
pub fn undecided_answer(stop: bool, fault: Option<ExecutionError>) -> Answer
    ensures { outcome_view result
        ≡ option_map_or Err (option_map fault_view fault) (Ok (bool (not stop))) }
{
    match fault {
        Some(e) => Err(e),
        None => Ok(Value::Bool(!stop)),
    }
}

fn invert(alloc: Global, value: &Value) -> Result<Answer, Refused>
    ensures value { IfOk result (λ r. outcome_view r ≡ negation (view value.now)) }
{
    match value {
        Value::Bool(b) => Ok(Ok(Value::Bool(!*b))),
        _ => Ok(Err(no_such_overload(alloc, "!")?)),
    }
}

/// Applies a unary operator to a value.
///
/// # Errors
/// Only [`Refused::Memory`], if memory is refused.
pub fn operate_on_one(
    alloc: Global,
    operator: UnaryOperator,
    value: &Value,
) -> Result<Answer, Refused>
    ensures value { IfOk result (λ r. outcome_view r ≡ unary_outcome operator (view value.now)) }
{
    if value.holds_double() {
        return Ok(Err(double_fault(alloc)?));
    }
    match operator {
        UnaryOperator::Not => invert(alloc, value),
        UnaryOperator::Negate => negate(alloc, value),
    }
}

/// The text of an operator.
pub fn text_of(operator: BinaryOperator) -> &'static str
    ensures { result.now ≡ operator_text operator }
{
    match operator {
        BinaryOperator::Or => "||",
        BinaryOperator::And => "&&",
        BinaryOperator::Less => "<",
        BinaryOperator::LessOrEqual => "<=",
        BinaryOperator::Greater => ">",
        BinaryOperator::GreaterOrEqual => ">=",
        BinaryOperator::Equal => "==",
        BinaryOperator::NotEqual => "!=",
        BinaryOperator::In => "in",
        BinaryOperator::Add => "+",
        BinaryOperator::Subtract => "-",
        BinaryOperator::Multiply => "*",
        BinaryOperator::Divide => "/",
        BinaryOperator::Remainder => "%",
    }
}

fn holds(operator: BinaryOperator, order: Ordering) -> bool
    ensures { result ≡ holds_of operator order }
{
    match operator {
        BinaryOperator::Less => order.is_lt(),
        BinaryOperator::LessOrEqual => order.is_le(),
        BinaryOperator::Greater => order.is_gt(),
        BinaryOperator::GreaterOrEqual => order.is_ge(),
        _ => false,
    }
}

fn order(
    alloc: Global,
    operator: BinaryOperator,
    left: &Value,
    right: &Value,
) -> Result<Answer, Refused>
    ensures value { IfOk result (λ r. outcome_view r ≡ order_test operator (view left.now) (view right.now)) }
{
    match left.compare(right) {
        Some(order) => Ok(Ok(Value::Bool(holds(operator, order)))),
        None => Ok(Err(no_such_overload(alloc, text_of(operator))?)),
    }
}

fn relate(
    alloc: Global,
    operator: BinaryOperator,
    left: &Value,
    right: &Value,
) -> Result<Answer, Refused>
    ensures value { IfOk result (λ r. outcome_view r
        ≡ relation_outcome operator (view left.now) (view right.now)) }
{
    match operator {
        BinaryOperator::Or => Ok(Err(no_such_overload(alloc, "||")?)),
        BinaryOperator::And => Ok(Err(no_such_overload(alloc, "&&")?)),
        BinaryOperator::Less => order(alloc, operator, left, right),
        BinaryOperator::LessOrEqual => order(alloc, operator, left, right),
        BinaryOperator::Greater => order(alloc, operator, left, right),
        BinaryOperator::GreaterOrEqual => order(alloc, operator, left, right),
        BinaryOperator::Equal => Ok(Ok(Value::Bool(*left == *right))),
        BinaryOperator::NotEqual => Ok(Ok(Value::Bool(*left != *right))),
        BinaryOperator::In => is_in(alloc, left, right),
        BinaryOperator::Add => add(alloc, left, right),
        BinaryOperator::Subtract => subtract(alloc, left, right),
        BinaryOperator::Multiply => multiply(alloc, left, right),
        BinaryOperator::Divide => divide(alloc, left, right),
        BinaryOperator::Remainder => remainder(alloc, left, right),
    }
}

/// Applies an operator to two ints.
fn relate_ints(alloc: Global, operator: BinaryOperator, m: i64, n: i64) -> Result<Answer, Refused>
    ensures value { IfOk result (λ r. outcome_view r ≡ relation_outcome operator (int m) (int n)) }
{
    match operator {
        BinaryOperator::Less => Ok(Ok(Value::Bool(m < n))),
        BinaryOperator::LessOrEqual => Ok(Ok(Value::Bool(m <= n))),
        BinaryOperator::Greater => Ok(Ok(Value::Bool(m > n))),
        BinaryOperator::GreaterOrEqual => Ok(Ok(Value::Bool(m >= n))),
        BinaryOperator::Equal => Ok(Ok(Value::Bool(m == n))),
        BinaryOperator::NotEqual => Ok(Ok(Value::Bool(m != n))),
        BinaryOperator::Add => Ok(add_ints(m, n)),
        BinaryOperator::Subtract => Ok(subtract_ints(m, n)),
        BinaryOperator::Multiply => Ok(multiply_ints(m, n)),
        BinaryOperator::Divide => Ok(divide_ints(m, n)),
        BinaryOperator::Remainder => Ok(remainder_of_ints(m, n)),
        BinaryOperator::Or => Ok(Err(no_such_overload(alloc, "||")?)),
        BinaryOperator::And => Ok(Err(no_such_overload(alloc, "&&")?)),
        BinaryOperator::In => Ok(Err(no_such_overload(alloc, "in")?)),
    }
}

/// Reports whether an order operator holds for two strings.
fn order_texts(operator: BinaryOperator, s: &str, t: &str) -> bool
    ensures { result ≡ holds_of operator (slice_cmp nat_cmp s.now t.now) }
{
    holds(operator, s.cmp(t))
}

/// Applies an operator to two strings.
fn relate_texts(
    alloc: Global,
    operator: BinaryOperator,
    s: &str,
    t: &str,
) -> Result<Answer, Refused>
    ensures value { IfOk result (λ r. outcome_view r ≡ relation_outcome operator (text s.now) (text t.now)) }
{
    match operator {
        BinaryOperator::Equal => Ok(Ok(Value::Bool(s == t))),
        BinaryOperator::NotEqual => Ok(Ok(Value::Bool(s != t))),
        BinaryOperator::Less => Ok(Ok(Value::Bool(order_texts(operator, s, t)))),
        BinaryOperator::LessOrEqual => Ok(Ok(Value::Bool(order_texts(operator, s, t)))),
        BinaryOperator::Greater => Ok(Ok(Value::Bool(order_texts(operator, s, t)))),
        BinaryOperator::GreaterOrEqual => Ok(Ok(Value::Bool(order_texts(operator, s, t)))),
        BinaryOperator::Add => join_texts(alloc, s, t),
        BinaryOperator::Or => Ok(Err(no_such_overload(alloc, "||")?)),
        BinaryOperator::And => Ok(Err(no_such_overload(alloc, "&&")?)),
        BinaryOperator::In => Ok(Err(no_such_overload(alloc, "in")?)),
        BinaryOperator::Subtract => Ok(Err(no_such_overload(alloc, "-")?)),
        BinaryOperator::Multiply => Ok(Err(no_such_overload(alloc, "*")?)),
        BinaryOperator::Divide => Ok(Err(no_such_overload(alloc, "/")?)),
        BinaryOperator::Remainder => Ok(Err(no_such_overload(alloc, "%")?)),
    }
}

/// Applies an operator to two values that may hold doubles. Membership comes
/// first, since its operands are mostly of two kinds.
#[inline(never)]
fn operate_on_any(
    alloc: Global,
    operator: BinaryOperator,
    left: &Value,
    right: &Value,
) -> Result<Answer, Refused>
    ensures value { IfOk result (λ r. outcome_view r
        ≡ binary_outcome operator (view left.now) (view right.now)) }
{
    if left.holds_double() || right.holds_double() {
        return Ok(Err(double_fault(alloc)?));
    }
    if let BinaryOperator::In = operator {
        return is_in(alloc, left, right);
    }
    relate(alloc, operator, left, right)
}

/// Applies a binary operator to two values.
///
/// # Errors
/// Only [`Refused::Memory`], if memory is refused.
#[inline(always)]
pub fn operate(
    alloc: Global,
    operator: BinaryOperator,
    left: &Value,
    right: &Value,
) -> Result<Answer, Refused>
    ensures value { IfOk result (λ r. outcome_view r
        ≡ binary_outcome operator (view left.now) (view right.now)) }
{
    match (left, right) {
        (Value::Int(m), Value::Int(n)) => relate_ints(alloc, operator, *m, *n),
        (Value::String(s), Value::String(t)) => {
            relate_texts(alloc, operator, s.as_str(), t.as_str())
        }
        (Value::Bool(_), Value::Bool(_)) => relate(alloc, operator, left, right),
        _ => operate_on_any(alloc, operator, left, right),
    }
}
