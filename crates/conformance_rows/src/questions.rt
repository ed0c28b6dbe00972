//! The questions about values, as expressions over `item` (made from the text `written`), `other`
//! and `text`.

use crate::keys::entry;

/// The expressions that make a value of a type from the text `written`.
const MAKERS: [(&str, &str); 11] = [
    ("string", "written"),
    ("quantity", "quantity(written)"),
    ("quantity of the integer", "quantity('0').add(int(written))"),
    ("address", "ip(written)"),
    ("cidr", "cidr(written)"),
    ("version", "semver(written)"),
    ("lenient version", "semver(written, true)"),
    ("url", "url(written)"),
    ("timestamp", "timestamp(written)"),
    ("duration", "duration(written)"),
    ("format", "format.named(written)"),
];

/// The order of two values by `compareTo`. Checks that it is the same from both sides and agrees
/// with equality.
const COMPARED: &str =
    "item.compareTo(other) == -other.compareTo(item) && (item.compareTo(other) == 0) == (item == other)
    ? ['less', 'equal', 'greater'][item.compareTo(other) + 1] : 'another order from the other side, or than equality'";

/// The names of the tests that are true of an address, or `none`.
const CLASS: &str = "[[['loopback', item.isLoopback()], ['unspecified', item.isUnspecified()],
    ['link-local multicast', item.isLinkLocalMulticast()], ['link-local unicast', item.isLinkLocalUnicast()],
    ['global unicast', item.isGlobalUnicast()]].filter(c, c[1]).map(c, c[0])].map(names, names == [] ? 'none' : names.join(', '))[0]";

/// The faults that a format finds in a text.
const FAULTS: &str =
    "item.validate(text).hasValue() ? item.validate(text).value().join('\\n') : 'none'";

/// The keys with the expressions that they stand for. In between is the type that one of the two
/// items must have; it is empty if any type will do. The first entry that fits is used.
const QUESTIONS: [(&str, &str, &str); 29] = [
    ("order", "", COMPARED),
    ("sum", "duration", "item + other"),
    ("sum", "", "item.add(other)"),
    ("difference", "duration", "item - other"),
    ("difference", "timestamp", "item - other"),
    ("difference", "", "item.sub(other)"),
    ("sign", "", "item.sign()"),
    ("is integer", "", "item.isInteger()"),
    ("integer", "", "item.asInteger()"),
    ("canonical", "", "ip.isCanonical(written)"),
    ("family", "cidr", "item.ip().family()"),
    ("family", "", "item.family()"),
    ("class", "", CLASS),
    ("written address", "", "item.ip()"),
    ("prefix length", "", "item.prefixLength()"),
    ("masked", "", "item.masked()"),
    ("contains", "address", "item.containsIP(other)"),
    ("contains", "", "item.containsCIDR(other)"),
    ("major", "", "item.major()"),
    ("minor", "", "item.minor()"),
    ("patch", "", "item.patch()"),
    ("scheme", "", "item.getScheme()"),
    ("host", "", "item.getHost()"),
    ("host name", "", "item.getHostname()"),
    ("port", "", "item.getPort()"),
    ("path", "", "item.getEscapedPath()"),
    ("query", "", "item.getQuery()"),
    ("equal", "", "item == other"),
    ("faults", "", FAULTS),
];

/// The expression that makes a value of a type from the text `written`, if the type is known.
pub fn maker(of: &str) -> Option<&'static str> {
    entry(&MAKERS, of)
}

/// The expression that a key stands for, given the types of the item and of the other one.
pub fn question(key: &str, of: &str, other: &str) -> Option<&'static str> {
    for &(asked, only, expression) in QUESTIONS.iter() {
        if asked == key && (only.is_empty() || only == of || only == other) {
            return Some(expression);
        }
    }
    None
}
