//! Tests if a text is the canonical text of its address
//! (RFC 5952, section 4), without printing the address.
ghost use Rattle.std.specs.Char.{digit_char};
ghost use Rattle.std.specs.Net.Text.{hex, groups_text, hex_groups_text, leading_zero_digits, longest_zero_run};
ghost use Rattle.std.specs.Prelude.{◌≡◌, ◌+◌, ◌/◌, ◌%◌, ◌<◌, ◌≤◌, [], length, bytes_eq, option_copied};
ghost use Rattle.kube_types_address.specs.Matching.{rest_after, more_text, is_whole, test_answer};
ghost use Rattle.kube_types_address.specs.Shown.{address};
ghost use Rattle.kube_types_address.specs.Texts.{IsTextOf, address_text, canonical_of};

use crate::ip::KubeIP;
use std::net::IpAddr;

impl KubeIP {
    /// Reports whether a text is the canonical text of the address that
    /// it parses to: the one that the address prints. Takes no memory.
    ///
    /// # Errors
    ///
    /// The error of `read` if the text doesn't parse.
    pub fn is_canonical(text: &str) -> Result<bool, &'static str>
        ensures { test_answer result ≡ canonical_of text.now }
    {
        match KubeIP::read(text) {
            Ok(ip) => Ok(ip.is_printed(text.as_bytes())),
            Err(error) => Err(error),
        }
    }

    /// Reports whether a text of this address is its
    /// canonical one. An IPv4 address has only one text.
    fn is_printed(&self, text: &[u8]) -> bool
        requires { IsTextOf text.now (address self.now) }
        ensures { result ≡ bytes_eq text.now (address_text (address self.now)) }
    {
        match self.address {
            IpAddr::V4(_) => true,
            IpAddr::V6(ip) => is_printed_text(text, &ip.segments()),
        }
    }
}

/// Reports whether the text is the canonical one of these groups.
fn is_printed_text(text: &[u8], groups: &[u16]) -> bool
    ensures { result ≡ bytes_eq text.now (hex_groups_text groups.now) }
{
    is_empty_rest(strip_printed(text, groups))
}

/// Reports whether the text matched and nothing is left of it.
fn is_empty_rest(rest: Option<&[u8]>) -> bool
    ensures { result ≡ is_whole (option_copied rest.entry) }
{
    match rest {
        Some(rest) => rest.is_empty(),
        None => false,
    }
}

/// The text after the canonical text of these groups, or None if it doesn't start with that.
#[tactic(auto, using(crate::proofs::Matches::printed_short, crate::proofs::Matches::printed_long, crate::proofs::Matches::append_then))]
fn strip_printed<'a>(text: &'a [u8], groups: &[u16]) -> Option<&'a [u8]>
    ensures { option_copied result ≡ rest_after (hex_groups_text groups.now) text.now }
{
    let (start, len) = longest_zero_run(groups);
    if len < 2 {
        return strip_groups(text, groups);
    }
    let head = strip_groups(text, &groups[..start])?;
    let middle = strip(head, b"::")?;
    strip_groups(middle, &groups[start + len..])
}

/// The text after groups separated by colons, or None if it doesn't start with them.
#[tactic(auto, using(crate::proofs::Matches::groups_cons, crate::proofs::Matches::append_then, crate::proofs::Matches::after_nothing))]
fn strip_groups<'a>(text: &'a [u8], groups: &[u16]) -> Option<&'a [u8]>
    ensures { option_copied result ≡ rest_after (groups_text groups.now) text.now }
{
    match groups {
        [] => Some(text),
        [first, others @ ..] => {
            let rest = strip_group(text, *first)?;
            strip_more(rest, others)
        }
    }
}

/// The text after groups with a colon before each, or None if it doesn't start with them.
#[tactic(auto, using(crate::proofs::Matches::turn_then, crate::proofs::Matches::append_then, crate::proofs::Matches::after_all))]
fn strip_more<'a>(text: &'a [u8], groups: &[u16]) -> Option<&'a [u8]>
    ensures { option_copied result ≡ rest_after (more_text groups.now) text.now }
{
    let mut rest = text;
    for group in groups {
        let after_colon = strip(rest, b":")?;
        let after_group = strip_group(after_colon, *group)?;
        rest = after_group;
    }
    Some(rest)
}

/// The text after a group in lower-case hex without
/// leading zeros, or None if it doesn't start with that.
fn strip_group(text: &[u8], group: u16) -> Option<&[u8]>
    ensures { option_copied result ≡ rest_after (hex group) text.now }
{
    let digits = [
        hex_digit(group / 0x1000),
        hex_digit(group / 0x100 % 16),
        hex_digit(group / 0x10 % 16),
        hex_digit(group % 16),
    ];
    let printed = &digits[leading_zero_digits(group)..];
    strip(text, printed)
}

/// The text after `front`, or None if it doesn't start with that.
fn strip<'a>(text: &'a [u8], front: &[u8]) -> Option<&'a [u8]>
    ensures { option_copied result ≡ rest_after front.now text.now }
{
    text.strip_prefix(front)
}

fn hex_digit(digit: u16) -> u8
    requires { digit < 16 }
    ensures { result ≡ digit_char digit }
{
    if digit < 10 {
        b'0' + digit as u8
    } else {
        b'a' + (digit - 10) as u8
    }
}

/// The number of leading zeros among a group's four hex digits. The last digit isn't counted.
fn leading_zero_digits(group: u16) -> usize
    ensures value { result ≡ leading_zero_digits group }
    ensures within { result < 4 }
{
    match group {
        0x1000.. => 0,
        0x100.. => 1,
        0x10.. => 2,
        _ => 3,
    }
}

/// The start and the length of the longest run of zeros. If two runs are equally long, the first.
fn longest_zero_run(groups: &[u16]) -> (usize, usize)
    ensures value { result ≡ longest_zero_run groups.now }
    ensures within { result.0 + result.1 ≤ length groups.now }
{
    let mut start = groups.len();
    let mut len = 0;
    let mut run = 0;
    for i in (0..groups.len()).rev() {
        run = if groups[i] == 0 { run + 1 } else { 0 };
        if run >= len {
            start = i;
            len = run;
        }
    }
    (start, len)
}
