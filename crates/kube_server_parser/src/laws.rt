//! Laws of texts.

ghost use Rattle.std.specs.Prelude.{◌≡◌, List, Some, true, ℕ};
ghost use Rattle.kube_server_syntax.specs.Machine.{Frame, Mode, State, step};
ghost use Rattle.kube_server_syntax.specs.Placed.{Placed};
ghost use Rattle.kube_server_syntax.specs.Tree.{Tree};
ghost use Rattle.kube_server_parser.specs.Described.{describes};
ghost use Rattle.kube_server_parser.specs.Expects.{expected};
ghost use Rattle.kube_server_parser.specs.Texts.{GoesWrong, TextDerives};
ghost use Rattle.kube_server_parser.specs.declared.syntax_error.SyntaxError.{SyntaxError};

/// A text derives at most one tree.
pub fn one_tree()
    ensures { (z : List ℕ) (t u : Tree) → TextDerives z t → TextDerives z u → t ≡ u }
{}

/// A text that goes wrong derives no tree.
pub fn wrong_is_no_tree()
    ensures { (z : List ℕ) (e : SyntaxError) (t : Tree) → GoesWrong z e → TextDerives z t → ⊥ }
{}

/// What the machine takes is among what is expected.
pub fn taken_is_expected()
    ensures { (m : Mode) (fs : List Frame) (k : Placed) (s : State) → step m fs k ≡ Some s
        → describes (expected m fs) k.token ≡ true }
{}
