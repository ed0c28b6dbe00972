//! Laws of the grammar.

ghost use Rattle.std.specs.Prelude.{◌≡◌, ◌∷◌, ◌++◌, List, [], Some, None};
ghost use Rattle.kube_server_syntax.specs.Depth.{Within};
ghost use Rattle.kube_server_syntax.specs.Grammar.{Expression, level};
ghost use Rattle.kube_server_syntax.specs.Machine.{State, read, start, step, steps};
ghost use Rattle.kube_server_syntax.specs.Placed.{Placed};
ghost use Rattle.kube_server_syntax.specs.Tree.{Tree};

/// What is read from tokens is the tree that they derive, and each tree that tokens derive is read.
pub fn reading_is_the_grammar()
    ensures complete { (ts : List Placed) (t : Tree) → Expression ts [] t → read ts ≡ Some t }
    ensures sound { (ts : List Placed) (t : Tree) → read ts ≡ Some t → Expression ts [] t }
{}

/// Tokens derive at most one tree.
pub fn one_tree()
    ensures { (ts : List Placed) (t u : Tree) → Expression ts [] t → Expression ts [] u → t ≡ u }
{}

/// If the machine stops at a token, no text of the grammar begins with the tokens up to it.
pub fn wrong_token()
    ensures { (before after : List Placed) (s : State) (k : Placed) (t : Tree)
        → steps before start ≡ Some s → step s.0 s.1 k ≡ None
        → Expression (before ++ k ∷ after) [] t → ⊥ }
{}

/// Tokens that the machine takes are the beginning of a text of the grammar.
pub fn beginning()
    ensures { (before : List Placed) (s : State) → steps before start ≡ Some s
        → (after : List Placed) × (t : Tree) × Expression (before ++ after) [] t }
{}

/// A tree nests at least as deep as each that the machine has of its first tokens. So tokens of
/// which it has a deeper one begin no tree within a level.
pub fn as_deep()
    ensures { (before after : List Placed) (s : State) (t : Tree) → steps before start ≡ Some s
        → Expression (before ++ after) [] t → Within (level t) s.0 s.1 }
{}
