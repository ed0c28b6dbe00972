//! Reads a format string character by character.
ghost use Rattle.std.specs.Prelude.{◌≡◌, ◌∷◌, ◌^◌, ◌≤◌, List, ℕ, Some, MatchOption, option_map, []};
ghost use Rattle.kube_functions_format.specs.Pieces.{with_digit, behind_digits};
ghost use Rattle.kube_functions_format.specs.Progress as spec;

/// The part of a verb read just before the next character.
#[derive(Clone, Copy)]
pub(crate) enum Mark {
    /// Nothing.
    Outside,
    /// A percent sign.
    Percent,
    /// A percent sign, a dot, and the digits of this number, if any.
    Precision(Option<u64>),
}

/// What the next character turns out to be.
#[derive(Clone, Copy)]
pub(crate) enum Step {
    /// A character that stands for itself.
    Literal(char),
    /// The letter of a verb.
    Verb(char),
    /// A part of a verb that isn't complete yet.
    More(Mark),
    /// A character that makes the precision before it invalid.
    Invalid,
}

// The number with one more digit appended, or None if it exceeds 64 bits.
fn with_digit(number: Option<u64>, digit: u32) -> Option<u64>
    ensures { MatchOption result (2 ^ 64 ≤ with_digit number digit) (λ n. n ≡ with_digit number digit) }
{
    match number.unwrap_or(0).checked_mul(10) {
        Some(tens) => tens.checked_add(u64::from(digit)),
        None => None,
    }
}

fn read_precision(number: Option<u64>, character: char) -> Step
    ensures { (cs : List ℕ) → behind_digits number (character ∷ cs) ≡ spec.read_on result cs }
{
    match character.to_digit(10) {
        Some(digit) => match with_digit(number, digit) {
            Some(number) => Step::More(Mark::Precision(Some(number))),
            None => Step::Invalid,
        },
        None => match number {
            Some(_) => Step::Verb(character),
            None => Step::Invalid,
        },
    }
}

/// Reads the next character, given the part of a verb before it.
pub(crate) fn read(mark: Mark, character: char) -> Step
    ensures { (cs : List ℕ) → spec.pieces_behind mark (character ∷ cs) ≡ spec.read_on result cs }
{
    match mark {
        Mark::Outside => match character {
            '%' => Step::More(Mark::Percent),
            _ => Step::Literal(character),
        },
        Mark::Percent => match character {
            '%' => Step::Literal('%'),
            '.' => Step::More(Mark::Precision(None)),
            _ => Step::Verb(character),
        },
        Mark::Precision(number) => read_precision(number, character),
    }
}

/// The error message if the format string ends after
/// this part of a verb, or None if it may end there.
pub(crate) fn unfinished(mark: Mark) -> Option<&'static str>
    ensures { spec.pieces_behind mark [] ≡ spec.pieces_at_end (option_map (λ s. s.now) result) }
{
    match mark {
        Mark::Outside => None,
        Mark::Percent => Some("format string ends with '%'"),
        Mark::Precision(None) => Some("invalid precision in format string"),
        Mark::Precision(Some(_)) => Some("format string ends after precision"),
    }
}
