//! Offsets of bytes in a text.
ghost use Rattle.std.specs.Prelude.{◌≡◌, ◌+◌, ◌<◌, length, take, drop, position, IfSome};
ghost use Rattle.kube_types_formats.specs.Offsets.{is_one_of, last_offset};

/// The offset of the first byte that is one of the marks, or None if there is none.
#[tactic(auto, unfolding(crate::specs::Offsets::is_one_of))]
pub(crate) fn first_offset(marks: &[u8], text: &[u8]) -> Option<usize>
    ensures byte_offset { result ≡ position (is_one_of marks.now) text.now }
    ensures within { IfSome result (λ byte_offset. byte_offset < length text.now) }
{
    text.iter().position(|byte| marks.contains(byte))
}

/// The offset of the last byte that is one of the marks, or None if there is none.
#[tactic(auto, using(crate::proofs::OffsetLemmas::last_offset_more, crate::proofs::OffsetLemmas::last_offset_end, crate::proofs::OffsetLemmas::last_offset_here), unfolding(crate::specs::Offsets::is_one_of))]
pub(crate) fn last_offset(marks: &[u8], text: &[u8]) -> Option<usize>
    ensures byte_offset { result ≡ last_offset marks.now text.now }
    ensures within { IfSome result (λ byte_offset. byte_offset < length text.now) }
{
    for byte_offset in (0..text.len()).rev() {
        if marks.contains(&text[byte_offset]) {
            return Some(byte_offset);
        }
    }
    None
}

/// The text before the byte at an offset, and the text after it.
#[tactic(auto, using(crate::proofs::OffsetLemmas::rest_is_shorter))]
pub(crate) fn cut(text: &[u8], byte_offset: usize) -> (&[u8], &[u8])
    requires { byte_offset < length text.now }
    ensures before { result.0.now ≡ take byte_offset text.now }
    ensures after { result.1.now ≡ drop (byte_offset + 1) text.now }
    ensures shorter { length result.1.now < length text.now }
{
    (&text[..byte_offset], &text[byte_offset + 1..])
}
