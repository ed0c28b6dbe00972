//! Laws of tokens and of the values of literals. Each is
//! the contract of a function whose body is empty.
ghost use Rattle.cel_syntax_lexer.specs.Cut.{tokens_of_text};
ghost use Rattle.cel_syntax_lexer.specs.Literal.{literal_value, takes_minus};
ghost use Rattle.cel_syntax_lexer.specs.Plain.{is_free_of};
ghost use Rattle.cel_syntax_lexer.specs.Strings.{is_closed};
ghost use Rattle.cel_syntax_lexer.specs.Token.{Token, number, quoted};
ghost use Rattle.cel_syntax_lexer.specs.Tokens.{Cuts, CutsInto, CutsIntoNone};
ghost use Rattle.cel_syntax_lexer.specs.declared.string_literal.Quotes.{Quotes};
ghost use Rattle.cel_value.specs.Data.{bytes, double, int, text, uint};
ghost use Rattle.std.specs.Fmt.{decimal};
ghost use Rattle.std.specs.Prelude.{◌≡◌, ◌^◌, ◌<◌, ◌≤◌, ◌∷◌, [], ◌++◌, Bool, List, ℕ, Some, None, codes, false, neg_ℤ, pos, true, MatchOption};
ghost use Rattle.std.specs.Str.{is_utf8};

/// A literal that takes no minus has no value with one.
pub fn minus_has_its_literals()
    ensures { (t : Token) → takes_minus t ≡ false → literal_value true t ≡ None }
{}

/// The decimal digits of a number denote that number.
pub fn decimal_digits_write_their_number()
    ensures int { (n : ℕ) → n < 2 ^ 63 → literal_value false (number (decimal n)) ≡ Some (int (pos n)) }
    ensures negative { (n : ℕ) → n ≤ 2 ^ 63
        → literal_value true (number (decimal n)) ≡ Some (int (neg_ℤ (pos n))) }
    ensures uint { (n : ℕ) → n < 2 ^ 64
        → literal_value false (number (decimal n ++ 117 ∷ [])) ≡ Some (uint n) }
{}

/// A body between quotes that contains neither the quote nor a backslash denotes itself,
/// and a backslash in a raw string denotes itself.
pub fn plain_bodies_write_themselves()
    ensures string { (s : List ℕ) → is_free_of 34 s ≡ true → is_free_of 92 s ≡ true → is_utf8 s ≡ true
        → literal_value false (quoted (34 ∷ s ++ 34 ∷ [])) ≡ Some (text s) }
    ensures bytes { (s : List ℕ) → is_free_of 34 s ≡ true → is_free_of 92 s ≡ true
        → literal_value false (quoted (98 ∷ 34 ∷ s ++ 34 ∷ [])) ≡ Some (bytes s) }
    ensures raw { (s : List ℕ) → is_free_of 34 s ≡ true → is_utf8 s ≡ true
        → literal_value false (quoted (114 ∷ 34 ∷ s ++ 34 ∷ [])) ≡ Some (text s) }
{}

/// Strings and bytes whose values are given by the section "String and
/// Bytes Values" of the CEL language definition.
pub fn strings_of_the_language_definition()
    ensures empty { literal_value false (quoted (codes "\"\"")) ≡ Some (text []) }
    ensures other_quotes { literal_value false (quoted (codes "'\"\"'")) ≡ Some (text (codes "\"\"")) }
    ensures tripled { literal_value false (quoted (codes "'''x''x'''")) ≡ Some (text (codes "x''x")) }
    ensures quote { literal_value false (quoted (codes "\"\\\"\"")) ≡ Some (text (codes "\"")) }
    ensures backslash { literal_value false (quoted (codes "\"\\\\\"")) ≡ Some (text (codes "\\")) }
    ensures raw { literal_value false (quoted (codes "r\"\\\\\"")) ≡ Some (text (codes "\\\\")) }
    ensures letters { literal_value false (quoted (codes "b\"abc\"")) ≡ Some (bytes (codes "abc")) }
    ensures in_utf8 { literal_value false (quoted (98 ∷ 34 ∷ 195 ∷ 191 ∷ 34 ∷ []))
        ≡ Some (bytes (195 ∷ 191 ∷ [])) }
    ensures octal_pair { literal_value false (quoted (codes "b\"\\303\\277\""))
        ≡ Some (bytes (195 ∷ 191 ∷ [])) }
    ensures octal { literal_value false (quoted (codes "b\"\\377\"")) ≡ Some (bytes (255 ∷ [])) }
    ensures octal_text { literal_value false (quoted (codes "\"\\377\"")) ≡ Some (text (195 ∷ 191 ∷ [])) }
{}

/// Invalid escapes: the literals have no value.
pub fn escapes_that_are_not_read()
    ensures unknown { literal_value false (quoted (codes "'\\q'")) ≡ None }
    ensures cut_short { literal_value false (quoted (codes "'\\x4'")) ≡ None }
    ensures octal_past_a_byte { literal_value false (quoted (codes "'\\400'")) ≡ None }
    ensures surrogate { literal_value false (quoted (codes "'\\ud800'")) ≡ None }
    ensures past_unicode { literal_value false (quoted (codes "'\\U00110000'")) ≡ None }
    ensures unicode_in_bytes { literal_value false (quoted (codes "b'\\u0041'")) ≡ None }
    ensures with_minus { literal_value true (quoted (codes "'a'")) ≡ None }
{}

/// Numbers in all their forms.
pub fn forms_of_numbers()
    ensures hexadecimal { literal_value true (number (codes "0xfF")) ≡ Some (int (neg_ℤ (pos 255))) }
    ensures unsigned { literal_value false (number (codes "0x10U")) ≡ Some (uint 16) }
    ensures no_minus { literal_value true (number (codes "1u")) ≡ None }
    ensures too_large { literal_value false (number (codes "9223372036854775808")) ≡ None }
    ensures least { literal_value true (number (codes "9223372036854775809")) ≡ None }
    ensures fraction { (negative : Bool) → literal_value negative (number (codes "1.5")) ≡ Some double }
    ensures no_whole { (negative : Bool) → literal_value negative (number (codes ".5E+3")) ≡ Some double }
    ensures exponent { (negative : Bool) → literal_value negative (number (codes "1e400")) ≡ Some double }
    ensures no_fraction { (negative : Bool) → literal_value negative (number (codes "1.")) ≡ None }
    ensures no_exponent { (negative : Bool) → literal_value negative (number (codes "1e")) ≡ None }
{}

/// A text splits into at most one list of tokens.
pub fn one_cut()
    ensures { (z : List ℕ) (ts us : List Token) → Cuts z ts → Cuts z us → ts ≡ us }
{}

/// `tokens_of_text` gives the tokens that a text splits
/// into, or `None` if it can't be split into tokens.
pub fn cut_is_what_a_text_cuts_into()
    ensures { (z : List ℕ) → MatchOption (tokens_of_text z) (CutsIntoNone z) (λ ts. CutsInto z ts) }
{}

/// A string that is closed has ended: it is no prefix of a longer string in the same quotes.
pub fn a_string_closes_once()
    ensures { (q : Quotes) (y z : List ℕ) → is_closed q y ≡ true → is_closed q (y ++ z) ≡ true → z ≡ [] }
{}
