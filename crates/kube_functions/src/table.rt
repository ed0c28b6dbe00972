//! The names of the functions that Kubernetes adds, and the forms in
//! which each may be called: the table of `specs/Table.antt` in code.
ghost use Rattle.std.specs.Prelude.{◌≡◌, Some};
ghost use Rattle.std.specs.Map.{lookup};
ghost use Rattle.std.specs.Str.{bytes_eq};
ghost use Rattle.cel_stdlib.specs.Table.{of_length};
ghost use Rattle.kube_functions.specs.Table as spec;

use crate::functions::{Declaration, Function};
use crate::libraries::encoders::EncodersFunction;
use crate::libraries::format::FormatFunction;
use crate::libraries::lists::ListsFunction;
use crate::libraries::math::MathFunction;
use crate::libraries::net::NetFunction;
use crate::libraries::quantity::QuantityFunction;
use crate::libraries::regex::RegexFunction;
use crate::libraries::semver::SemverFunction;
use crate::libraries::sets::SetsFunction;
use crate::libraries::strings::StringsFunction;
use crate::libraries::url::UrlFunction;
use kube_types::FormatKind;

// A function that is called on a receiver, with `least` to `greatest` arguments.
#[inline(always)]
fn method(least: usize, greatest: usize, function: Function) -> Option<Declaration>
    ensures { result ≡ Some (spec.method least greatest function) }
{
    Some(Declaration {
        receiver: true,
        least,
        greatest: Some(greatest),
        function,
    })
}

// A function that is called without a receiver, with `least` to `greatest` arguments.
#[inline(always)]
fn global(least: usize, greatest: usize, function: Function) -> Option<Declaration>
    ensures { result ≡ Some (spec.global least greatest function) }
{
    Some(Declaration {
        receiver: false,
        least,
        greatest: Some(greatest),
        function,
    })
}

// A function that is called without a receiver, with one or more arguments.
#[inline(always)]
fn many(function: Function) -> Option<Declaration>
    ensures { result ≡ Some (spec.many function) }
{
    Some(Declaration {
        receiver: false,
        least: 1,
        greatest: None,
        function,
    })
}

// The function that returns a named format. It is called without a receiver and without arguments.
#[inline(always)]
fn named_format(kind: FormatKind) -> Option<Declaration>
    ensures { result ≡ Some (spec.named_format kind) }
{
    global(0, 0, Function::Format(FormatFunction::Kind(kind)))
}

fn methods_of_two(name: &str) -> Option<Declaration>
    ensures { result ≡ lookup (bytes_eq name.now) (of_length 2 spec.methods) }
{
    match name {
        "ip" => method(0, 0, Function::Net(NetFunction::IpOfCidr)),
        _ => None,
    }
}

fn methods_of_three(name: &str) -> Option<Declaration>
    ensures { result ≡ lookup (bytes_eq name.now) (of_length 3 spec.methods) }
{
    match name {
        "max" => method(0, 0, Function::Lists(ListsFunction::Max)),
        "min" => method(0, 0, Function::Lists(ListsFunction::Min)),
        "sum" => method(0, 0, Function::Lists(ListsFunction::Sum)),
        "add" => method(1, 1, Function::Quantity(QuantityFunction::Add)),
        "sub" => method(1, 1, Function::Quantity(QuantityFunction::Sub)),
        _ => None,
    }
}

fn methods_of_four(name: &str) -> Option<Declaration>
    ensures { result ≡ lookup (bytes_eq name.now) (of_length 4 spec.methods) }
{
    match name {
        "join" => method(0, 1, Function::Strings(StringsFunction::Join)),
        "trim" => method(0, 0, Function::Strings(StringsFunction::Trim)),
        "last" => method(0, 0, Function::Lists(ListsFunction::Last)),
        "sort" => method(0, 0, Function::Lists(ListsFunction::Sort)),
        "find" => method(1, 1, Function::Regex(RegexFunction::Find)),
        "sign" => method(0, 0, Function::Quantity(QuantityFunction::Sign)),
        _ => None,
    }
}

fn methods_of_five(name: &str) -> Option<Declaration>
    ensures { result ≡ lookup (bytes_eq name.now) (of_length 5 spec.methods) }
{
    match name {
        "split" => method(1, 2, Function::Strings(StringsFunction::Split)),
        "first" => method(0, 0, Function::Lists(ListsFunction::First)),
        "slice" => method(2, 2, Function::Lists(ListsFunction::Slice)),
        "major" => method(0, 0, Function::Semver(SemverFunction::Major)),
        "minor" => method(0, 0, Function::Semver(SemverFunction::Minor)),
        "patch" => method(0, 0, Function::Semver(SemverFunction::Patch)),
        _ => None,
    }
}

fn methods_of_six(name: &str) -> Option<Declaration>
    ensures { result ≡ lookup (bytes_eq name.now) (of_length 6 spec.methods) }
{
    match name {
        "charAt" => method(1, 1, Function::Strings(StringsFunction::CharAt)),
        "format" => method(1, 1, Function::Strings(StringsFunction::Format)),
        "family" => method(0, 0, Function::Net(NetFunction::Family)),
        "masked" => method(0, 0, Function::Net(NetFunction::Masked)),
        _ => None,
    }
}

fn methods_of_seven(name: &str) -> Option<Declaration>
    ensures { result ≡ lookup (bytes_eq name.now) (of_length 7 spec.methods) }
{
    match name {
        "indexOf" => method(1, 2, Function::Strings(StringsFunction::IndexOf)),
        "replace" => method(2, 3, Function::Strings(StringsFunction::Replace)),
        "reverse" => method(0, 0, Function::Strings(StringsFunction::Reverse)),
        "flatten" => method(0, 1, Function::Lists(ListsFunction::Flatten)),
        "findAll" => method(1, 2, Function::Regex(RegexFunction::FindAll)),
        "getHost" => method(0, 0, Function::Url(UrlFunction::Host)),
        "getPort" => method(0, 0, Function::Url(UrlFunction::Port)),
        _ => None,
    }
}

fn methods_of_eight(name: &str) -> Option<Declaration>
    ensures { result ≡ lookup (bytes_eq name.now) (of_length 8 spec.methods) }
{
    match name {
        "distinct" => method(0, 0, Function::Lists(ListsFunction::Distinct)),
        "isSorted" => method(0, 0, Function::Lists(ListsFunction::IsSorted)),
        "getQuery" => method(0, 0, Function::Url(UrlFunction::Query)),
        "validate" => method(1, 1, Function::Format(FormatFunction::Validate)),
        _ => None,
    }
}

fn methods_of_nine(name: &str) -> Option<Declaration>
    ensures { result ≡ lookup (bytes_eq name.now) (of_length 9 spec.methods) }
{
    match name {
        "substring" => method(1, 2, Function::Strings(StringsFunction::Substring)),
        "asInteger" => method(0, 0, Function::Quantity(QuantityFunction::AsInteger)),
        "compareTo" => method(1, 1, Function::Quantity(QuantityFunction::CompareTo)),
        "isInteger" => method(0, 0, Function::Quantity(QuantityFunction::IsInteger)),
        "getScheme" => method(0, 0, Function::Url(UrlFunction::Scheme)),
        _ => None,
    }
}

fn methods_of_ten(name: &str) -> Option<Declaration>
    ensures { result ≡ lookup (bytes_eq name.now) (of_length 10 spec.methods) }
{
    match name {
        "lowerAscii" => method(0, 0, Function::Strings(StringsFunction::LowerAscii)),
        "upperAscii" => method(0, 0, Function::Strings(StringsFunction::UpperAscii)),
        "isLoopback" => method(0, 0, Function::Net(NetFunction::IsLoopback)),
        "containsIP" => method(1, 1, Function::Net(NetFunction::ContainsIp)),
        "isLessThan" => method(1, 1, Function::Quantity(QuantityFunction::IsLessThan)),
        _ => None,
    }
}

fn methods_of_eleven(name: &str) -> Option<Declaration>
    ensures { result ≡ lookup (bytes_eq name.now) (of_length 11 spec.methods) }
{
    match name {
        "lastIndexOf" => method(1, 2, Function::Strings(StringsFunction::LastIndexOf)),
        "getHostname" => method(0, 0, Function::Url(UrlFunction::Hostname)),
        _ => None,
    }
}

fn methods_of_twelve(name: &str) -> Option<Declaration>
    ensures { result ≡ lookup (bytes_eq name.now) (of_length 12 spec.methods) }
{
    match name {
        "containsCIDR" => method(1, 1, Function::Net(NetFunction::ContainsCidr)),
        "prefixLength" => method(0, 0, Function::Net(NetFunction::PrefixLength)),
        _ => None,
    }
}

fn methods_of_thirteen(name: &str) -> Option<Declaration>
    ensures { result ≡ lookup (bytes_eq name.now) (of_length 13 spec.methods) }
{
    match name {
        "isUnspecified" => method(0, 0, Function::Net(NetFunction::IsUnspecified)),
        "isGreaterThan" => method(1, 1, Function::Quantity(QuantityFunction::IsGreaterThan)),
        _ => None,
    }
}

fn methods_of_fourteen(name: &str) -> Option<Declaration>
    ensures { result ≡ lookup (bytes_eq name.now) (of_length 14 spec.methods) }
{
    match name {
        "getEscapedPath" => method(0, 0, Function::Url(UrlFunction::EscapedPath)),
        _ => None,
    }
}

fn methods_of_fifteen(name: &str) -> Option<Declaration>
    ensures { result ≡ lookup (bytes_eq name.now) (of_length 15 spec.methods) }
{
    match name {
        "isGlobalUnicast" => method(0, 0, Function::Net(NetFunction::IsGlobalUnicast)),
        _ => None,
    }
}

fn methods_of_eighteen(name: &str) -> Option<Declaration>
    ensures { result ≡ lookup (bytes_eq name.now) (of_length 18 spec.methods) }
{
    match name {
        "isLinkLocalUnicast" => method(0, 0, Function::Net(NetFunction::IsLinkLocalUnicast)),
        _ => None,
    }
}

fn methods_of_twenty(name: &str) -> Option<Declaration>
    ensures { result ≡ lookup (bytes_eq name.now) (of_length 20 spec.methods) }
{
    match name {
        "isLinkLocalMulticast" => method(0, 0, Function::Net(NetFunction::IsLinkLocalMulticast)),
        _ => None,
    }
}

// Returns the function on a receiver with this name, if
// any. It compares only with the names of the same length.
fn method_named(name: &str) -> Option<Declaration>
    ensures { result ≡ spec.method_named name.now }
{
    match name.len() {
        2 => methods_of_two(name),
        3 => methods_of_three(name),
        4 => methods_of_four(name),
        5 => methods_of_five(name),
        6 => methods_of_six(name),
        7 => methods_of_seven(name),
        8 => methods_of_eight(name),
        9 => methods_of_nine(name),
        10 => methods_of_ten(name),
        11 => methods_of_eleven(name),
        12 => methods_of_twelve(name),
        13 => methods_of_thirteen(name),
        14 => methods_of_fourteen(name),
        15 => methods_of_fifteen(name),
        18 => methods_of_eighteen(name),
        20 => methods_of_twenty(name),
        _ => None,
    }
}

fn globals_of_two(name: &str) -> Option<Declaration>
    ensures { result ≡ lookup (bytes_eq name.now) (of_length 2 spec.globals) }
{
    match name {
        "ip" => global(1, 1, Function::Net(NetFunction::Ip)),
        _ => None,
    }
}

fn globals_of_three(name: &str) -> Option<Declaration>
    ensures { result ≡ lookup (bytes_eq name.now) (of_length 3 spec.globals) }
{
    match name {
        "url" => global(1, 1, Function::Url(UrlFunction::Url)),
        _ => None,
    }
}

fn globals_of_four(name: &str) -> Option<Declaration>
    ensures { result ≡ lookup (bytes_eq name.now) (of_length 4 spec.globals) }
{
    match name {
        "isIP" => global(1, 1, Function::Net(NetFunction::IsIp)),
        "cidr" => global(1, 1, Function::Net(NetFunction::Cidr)),
        _ => None,
    }
}

fn globals_of_five(name: &str) -> Option<Declaration>
    ensures { result ≡ lookup (bytes_eq name.now) (of_length 5 spec.globals) }
{
    match name {
        "isURL" => global(1, 1, Function::Url(UrlFunction::IsUrl)),
        _ => None,
    }
}

fn globals_of_six(name: &str) -> Option<Declaration>
    ensures { result ≡ lookup (bytes_eq name.now) (of_length 6 spec.globals) }
{
    match name {
        "isIPv4" => global(1, 1, Function::Net(NetFunction::IsIpv4)),
        "isIPv6" => global(1, 1, Function::Net(NetFunction::IsIpv6)),
        "isCIDR" => global(1, 1, Function::Net(NetFunction::IsCidr)),
        "semver" => global(1, 2, Function::Semver(SemverFunction::Semver)),
        _ => None,
    }
}

fn globals_of_eight(name: &str) -> Option<Declaration>
    ensures { result ≡ lookup (bytes_eq name.now) (of_length 8 spec.globals) }
{
    match name {
        "math.abs" => global(1, 1, Function::Math(MathFunction::Abs)),
        "isCIDRv4" => global(1, 1, Function::Net(NetFunction::IsCidrV4)),
        "isCIDRv6" => global(1, 1, Function::Net(NetFunction::IsCidrV6)),
        "isSemver" => global(1, 2, Function::Semver(SemverFunction::IsSemver)),
        "quantity" => global(1, 1, Function::Quantity(QuantityFunction::Quantity)),
        _ => None,
    }
}

fn globals_of_nine(name: &str) -> Option<Declaration>
    ensures { result ≡ lookup (bytes_eq name.now) (of_length 9 spec.globals) }
{
    match name {
        "math.sign" => global(1, 1, Function::Math(MathFunction::Sign)),
        _ => None,
    }
}

fn globals_of_ten(name: &str) -> Option<Declaration>
    ensures { result ≡ lookup (bytes_eq name.now) (of_length 10 spec.globals) }
{
    match name {
        "math.bitOr" => global(2, 2, Function::Math(MathFunction::BitOr)),
        "math.least" => many(Function::Math(MathFunction::Least)),
        "isQuantity" => global(1, 1, Function::Quantity(QuantityFunction::IsQuantity)),
        "format.uri" => named_format(FormatKind::Uri),
        _ => None,
    }
}

fn globals_of_eleven(name: &str) -> Option<Declaration>
    ensures { result ≡ lookup (bytes_eq name.now) (of_length 11 spec.globals) }
{
    match name {
        "lists.range" => global(1, 1, Function::Lists(ListsFunction::Range)),
        "math.bitAnd" => global(2, 2, Function::Math(MathFunction::BitAnd)),
        "math.bitNot" => global(1, 1, Function::Math(MathFunction::BitNot)),
        "math.bitXor" => global(2, 2, Function::Math(MathFunction::BitXor)),
        "format.uuid" => named_format(FormatKind::Uuid),
        "format.byte" => named_format(FormatKind::Byte),
        "format.date" => named_format(FormatKind::Date),
        _ => None,
    }
}

fn globals_of_twelve(name: &str) -> Option<Declaration>
    ensures { result ≡ lookup (bytes_eq name.now) (of_length 12 spec.globals) }
{
    match name {
        "format.named" => global(1, 1, Function::Format(FormatFunction::Named)),
        _ => None,
    }
}

fn globals_of_thirteen(name: &str) -> Option<Declaration>
    ensures { result ≡ lookup (bytes_eq name.now) (of_length 13 spec.globals) }
{
    match name {
        "strings.quote" => global(1, 1, Function::Strings(StringsFunction::Quote)),
        "math.greatest" => many(Function::Math(MathFunction::Greatest)),
        "sets.contains" => global(2, 2, Function::Sets(SetsFunction::Contains)),
        "base64.decode" => global(1, 1, Function::Encoders(EncodersFunction::Decode)),
        "base64.encode" => global(1, 1, Function::Encoders(EncodersFunction::Encode)),
        _ => None,
    }
}

fn globals_of_fourteen(name: &str) -> Option<Declaration>
    ensures { result ≡ lookup (bytes_eq name.now) (of_length 14 spec.globals) }
{
    match name {
        "ip.isCanonical" => global(1, 1, Function::Net(NetFunction::IsCanonical)),
        _ => None,
    }
}

fn globals_of_fifteen(name: &str) -> Option<Declaration>
    ensures { result ≡ lookup (bytes_eq name.now) (of_length 15 spec.globals) }
{
    match name {
        "sets.equivalent" => global(2, 2, Function::Sets(SetsFunction::Equivalent)),
        "sets.intersects" => global(2, 2, Function::Sets(SetsFunction::Intersects)),
        "format.datetime" => named_format(FormatKind::DateTime),
        _ => None,
    }
}

fn globals_of_seventeen(name: &str) -> Option<Declaration>
    ensures { result ≡ lookup (bytes_eq name.now) (of_length 17 spec.globals) }
{
    match name {
        "math.bitShiftLeft" => global(2, 2, Function::Math(MathFunction::BitShiftLeft)),
        "format.labelValue" => named_format(FormatKind::LabelValue),
        _ => None,
    }
}

fn globals_of_eighteen(name: &str) -> Option<Declaration>
    ensures { result ≡ lookup (bytes_eq name.now) (of_length 18 spec.globals) }
{
    match name {
        "math.bitShiftRight" => global(2, 2, Function::Math(MathFunction::BitShiftRight)),
        _ => None,
    }
}

fn globals_of_nineteen(name: &str) -> Option<Declaration>
    ensures { result ≡ lookup (bytes_eq name.now) (of_length 19 spec.globals) }
{
    match name {
        "jsonpatch.escapeKey" => global(1, 1, Function::Encoders(EncodersFunction::EscapeKey)),
        "format.dns1123Label" => named_format(FormatKind::Dns1123Label),
        "format.dns1035Label" => named_format(FormatKind::Dns1035Label),
        _ => None,
    }
}

fn globals_of_twenty(name: &str) -> Option<Declaration>
    ensures { result ≡ lookup (bytes_eq name.now) (of_length 20 spec.globals) }
{
    match name {
        "format.qualifiedName" => named_format(FormatKind::QualifiedName),
        _ => None,
    }
}

fn globals_of_twenty_three(name: &str) -> Option<Declaration>
    ensures { result ≡ lookup (bytes_eq name.now) (of_length 23 spec.globals) }
{
    match name {
        "format.dns1123Subdomain" => named_format(FormatKind::Dns1123Subdomain),
        _ => None,
    }
}

fn globals_of_twenty_five(name: &str) -> Option<Declaration>
    ensures { result ≡ lookup (bytes_eq name.now) (of_length 25 spec.globals) }
{
    match name {
        "format.dns1123LabelPrefix" => named_format(FormatKind::Dns1123LabelPrefix),
        "format.dns1035LabelPrefix" => named_format(FormatKind::Dns1035LabelPrefix),
        _ => None,
    }
}

fn globals_of_twenty_nine(name: &str) -> Option<Declaration>
    ensures { result ≡ lookup (bytes_eq name.now) (of_length 29 spec.globals) }
{
    match name {
        "format.dns1123SubdomainPrefix" => named_format(FormatKind::Dns1123SubdomainPrefix),
        _ => None,
    }
}

// Returns the function without a receiver with this name, if
// any. It compares only with the names of the same length.
fn global_named(name: &str) -> Option<Declaration>
    ensures { result ≡ spec.global_named name.now }
{
    match name.len() {
        2 => globals_of_two(name),
        3 => globals_of_three(name),
        4 => globals_of_four(name),
        5 => globals_of_five(name),
        6 => globals_of_six(name),
        8 => globals_of_eight(name),
        9 => globals_of_nine(name),
        10 => globals_of_ten(name),
        11 => globals_of_eleven(name),
        12 => globals_of_twelve(name),
        13 => globals_of_thirteen(name),
        14 => globals_of_fourteen(name),
        15 => globals_of_fifteen(name),
        17 => globals_of_seventeen(name),
        18 => globals_of_eighteen(name),
        19 => globals_of_nineteen(name),
        20 => globals_of_twenty(name),
        23 => globals_of_twenty_three(name),
        25 => globals_of_twenty_five(name),
        29 => globals_of_twenty_nine(name),
        _ => None,
    }
}

/// Returns the function that Kubernetes adds under this name,
/// called on a receiver or without one as `receiver` says, if any.
pub(crate) fn function_named(name: &str, receiver: bool) -> Option<Declaration>
    ensures { result ≡ spec.function_named name.now receiver }
{
    if receiver {
        method_named(name)
    } else {
        global_named(name)
    }
}
