//! The names of the standard functions, and the forms in which they may be called.
ghost use Rattle.std.specs.Prelude.{◌≡◌, Some, None, if◌then◌else◌};
ghost use Rattle.std.specs.Map.{lookup};
ghost use Rattle.std.specs.Str.{bytes_eq};
ghost use Rattle.cel_stdlib.specs.Table.{of_length};
ghost use Rattle.cel_stdlib.specs.Table as spec;

use crate::extremes::Extreme;

/// A function of one value: its receiver or its only argument.
#[derive(Clone, Copy, Debug, PartialEq, Eq)]
pub enum OfOne {
    /// `size`.
    Size,
    /// `int`.
    Int,
    /// `uint`.
    Uint,
    /// `string`.
    String,
    /// `bytes`.
    Bytes,
    /// `timestamp`.
    Timestamp,
    /// `duration`.
    Duration,
    /// `hasValue`.
    HasValue,
    /// `value`.
    Value,
}

/// A function of two values: its receiver and its argument, or its two arguments.
#[derive(Clone, Copy, Debug, PartialEq, Eq)]
pub enum OfTwo {
    /// `contains`.
    Contains,
    /// `startsWith`.
    StartsWith,
    /// `endsWith`.
    EndsWith,
    /// `matches`.
    Matches,
}

/// A standard function.
#[derive(Clone, Copy, Debug, PartialEq, Eq)]
pub enum Function {
    /// A function of one value.
    One(OfOne),
    /// A function of two values.
    Two(OfTwo),
    /// A function of one or more arguments.
    Many(Extreme),
}

// Returns the function if the name is `wanted`.
fn only(name: &str, wanted: &str, function: Function) -> Option<Function>
    ensures { result ≡ (if bytes_eq name.now wanted.now then Some function else None) }
{
    if name == wanted { Some(function) } else { None }
}

fn functions_of_three(name: &str) -> Option<Function>
    ensures { result ≡ lookup (bytes_eq name.now) (of_length 3 spec.standard_functions) }
{
    match name {
        "int" => Some(Function::One(OfOne::Int)),
        "min" => Some(Function::Many(Extreme::Least)),
        "max" => Some(Function::Many(Extreme::Greatest)),
        _ => None,
    }
}

fn functions_of_four(name: &str) -> Option<Function>
    ensures { result ≡ lookup (bytes_eq name.now) (of_length 4 spec.standard_functions) }
{
    match name {
        "size" => Some(Function::One(OfOne::Size)),
        "uint" => Some(Function::One(OfOne::Uint)),
        _ => None,
    }
}

fn functions_of_five(name: &str) -> Option<Function>
    ensures { result ≡ lookup (bytes_eq name.now) (of_length 5 spec.standard_functions) }
{
    match name {
        "bytes" => Some(Function::One(OfOne::Bytes)),
        "value" => Some(Function::One(OfOne::Value)),
        _ => None,
    }
}

fn functions_of_eight(name: &str) -> Option<Function>
    ensures { result ≡ lookup (bytes_eq name.now) (of_length 8 spec.standard_functions) }
{
    match name {
        "duration" => Some(Function::One(OfOne::Duration)),
        "hasValue" => Some(Function::One(OfOne::HasValue)),
        "contains" => Some(Function::Two(OfTwo::Contains)),
        "endsWith" => Some(Function::Two(OfTwo::EndsWith)),
        _ => None,
    }
}

/// Returns the function with this name. It compares only with the names of the same length.
pub(crate) fn function_named(name: &str) -> Option<Function>
    ensures { result ≡ spec.function_named name.now }
{
    match name.len() {
        3 => functions_of_three(name),
        4 => functions_of_four(name),
        5 => functions_of_five(name),
        6 => only(name, "string", Function::One(OfOne::String)),
        7 => only(name, "matches", Function::Two(OfTwo::Matches)),
        8 => functions_of_eight(name),
        9 => only(name, "timestamp", Function::One(OfOne::Timestamp)),
        10 => only(name, "startsWith", Function::Two(OfTwo::StartsWith)),
        _ => None,
    }
}

// Whether a call has the form `v.f(..)` with this number of arguments.
#[inline(always)]
fn is_method(wanted: usize, receiver: bool, count: usize) -> bool
    ensures { result ≡ spec.method wanted receiver count }
{
    receiver && count == wanted
}

// Whether a call has the form `f(..)` with this number of arguments.
#[inline(always)]
fn is_global(wanted: usize, receiver: bool, count: usize) -> bool
    ensures { result ≡ spec.global wanted receiver count }
{
    !receiver && count == wanted
}

#[inline(always)]
fn one_takes(function: OfOne, receiver: bool, count: usize) -> bool
    ensures { result ≡ spec.takes_one function receiver count }
{
    match function {
        OfOne::Size | OfOne::String => {
            is_method(0, receiver, count) || is_global(1, receiver, count)
        }
        OfOne::Int | OfOne::Uint | OfOne::Bytes | OfOne::Timestamp | OfOne::Duration => {
            is_global(1, receiver, count)
        }
        OfOne::HasValue | OfOne::Value => is_method(0, receiver, count),
    }
}

#[inline(always)]
fn two_takes(function: OfTwo, receiver: bool, count: usize) -> bool
    ensures { result ≡ spec.takes_two function receiver count }
{
    match function {
        OfTwo::Matches => is_method(1, receiver, count) || is_global(2, receiver, count),
        _ => is_method(1, receiver, count),
    }
}

#[inline(always)]
fn many_takes(receiver: bool, count: usize) -> bool
    ensures { result ≡ spec.takes_many receiver count }
{
    !receiver && count > 0
}

/// Reports whether the function may be called with or
/// without a receiver and with `count` arguments.
#[inline(always)]
pub(crate) fn takes(function: Function, receiver: bool, count: usize) -> bool
    ensures { result ≡ spec.takes function receiver count }
{
    match function {
        Function::One(function) => one_takes(function, receiver, count),
        Function::Two(function) => two_takes(function, receiver, count),
        Function::Many(_) => many_takes(receiver, count),
    }
}

/// Returns the function that may be called by this name and in this form, if any.
pub fn known_function(name: &str, receiver: bool, count: usize) -> Option<Function>
    ensures { result ≡ spec.known_function name.now receiver count }
{
    match function_named(name) {
        Some(function) => {
            if takes(function, receiver, count) {
                Some(function)
            } else {
                None
            }
        }
        None => None,
    }
}
