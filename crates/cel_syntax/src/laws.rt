//! Laws of the grammar and of the parser.
ghost use Rattle.cel_syntax.specs.Grammar.{Derives};
ghost use Rattle.cel_syntax.specs.Parser.{tree_of_tokens};
ghost use Rattle.cel_syntax.specs.Reading.{TextDerives, tree_of};
ghost use Rattle.cel_syntax_ast.specs.Term.{Term};
ghost use Rattle.cel_syntax_lexer.specs.Token.{Token};
ghost use Rattle.std.specs.Prelude.{◌≡◌, List, Some, ℕ};

/// `tree_of_tokens` gives a tree exactly if the tokens derive it.
pub fn tree_is_grammar()
    ensures complete { (ts : List Token) (t : Term) → Derives ts t → tree_of_tokens ts ≡ Some t }
    ensures sound { (ts : List Token) (t : Term) → tree_of_tokens ts ≡ Some t → Derives ts t }
{}

/// Tokens derive at most one tree.
pub fn one_tree()
    ensures { (ts : List Token) (t u : Term) → Derives ts t → Derives ts u → t ≡ u }
{}

/// A text derives at most one tree.
pub fn text_derives_one_tree()
    ensures { (z : List ℕ) (t u : Term) → TextDerives z t → TextDerives z u → t ≡ u }
{}

/// `tree_of` gives a tree exactly if the text derives it.
pub fn tree_is_derived()
    ensures complete { (z : List ℕ) (t : Term) → TextDerives z t → tree_of z ≡ Some t }
    ensures sound { (z : List ℕ) (t : Term) → tree_of z ≡ Some t → TextDerives z t }
{}
