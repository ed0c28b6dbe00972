//! Texts of a fixed form, byte by byte.
ghost use Rattle.std.specs.Prelude.{◌≡◌, ◌+◌, ◌<◌, length};
ghost use Rattle.kube_types_formats.specs.Forms.{fits_mark, fits, two_digits};

/// Reports whether the byte fits the mark.
#[tactic(auto, unfolding(crate::specs::Forms::fits_mark))]
fn fits_mark(mark: u8, byte: u8) -> bool
    ensures { result ≡ fits_mark mark byte }
{
    match mark {
        b'd' => byte.is_ascii_digit(),
        b'x' => byte.is_ascii_hexdigit(),
        _ => mark == byte,
    }
}

/// Reports whether the text has the form: the same length, and each byte fits its mark.
///
/// The mark `d` stands for a decimal digit, `x` for a
/// hexadecimal digit, and any other mark for itself.
#[tactic(auto, using(crate::proofs::FormLemmas::fits_step, crate::proofs::FormLemmas::fits_lengths, crate::proofs::FormLemmas::fits_end))]
pub(crate) fn fits(form: &[u8], text: &[u8]) -> bool
    ensures { result ≡ fits form.now text.now }
{
    if form.len() != text.len() {
        return false;
    }
    for (byte_offset, mark) in form.iter().enumerate() {
        if !fits_mark(*mark, text[byte_offset]) {
            return false;
        }
    }
    true
}

/// The value of the two decimal digits at an offset.
pub(crate) fn two_digits(text: &[u8], byte_offset: usize) -> u32
    requires { byte_offset + 1 < length text.now }
    ensures value { result ≡ two_digits text.now byte_offset }
    ensures few { result < 10_000 }
{
    let tens = text[byte_offset].saturating_sub(b'0');
    let ones = text[byte_offset + 1].saturating_sub(b'0');
    u32::from(tens) * 10 + u32::from(ones)
}
