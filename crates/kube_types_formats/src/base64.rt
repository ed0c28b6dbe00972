//! Base64 texts, by RFC 4648.
ghost use Rattle.std.specs.Prelude.{◌≡◌, ◌≤◌, length};
ghost use Rattle.kube_types_formats.specs.Base64.{is_base64_byte, letters_len, is_padding, is_base64};

/// Reports whether the byte is in one of the two alphabets.
fn is_base64_byte(byte: u8) -> bool
    ensures { result ≡ is_base64_byte byte }
{
    byte.is_ascii_alphanumeric() || matches!(byte, b'+' | b'/' | b'-' | b'_')
}

/// The number of bytes of an alphabet that the text starts with.
fn letters_len(text: &[u8]) -> usize
    ensures len { result ≡ letters_len text.now }
    ensures within { result ≤ length text.now }
{
    text.iter()
        .take_while(|byte| is_base64_byte(**byte))
        .count()
}

/// Reports whether `rest` may follow the encoded bytes in a text that is `len` bytes long in all.
fn is_padding(rest: &[u8], len: usize) -> bool
    ensures { result ≡ is_padding rest.now len }
{
    rest.len() <= 2 && rest.iter().all(|byte| *byte == b'=') && (rest.is_empty() || len % 4 == 0)
}

/// Reports whether the text is Base64, with or without padding.
#[tactic(auto, unfolding(crate::specs::Base64::is_base64))]
pub(crate) fn is_base64(text: &[u8]) -> bool
    ensures { result ≡ is_base64 text.now }
{
    let letters = letters_len(text);
    letters % 4 != 1 && is_padding(&text[letters..], text.len())
}
