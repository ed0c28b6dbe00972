//! Theorems about the definitions alone.
ghost use Rattle.kube_functions_format.specs.Laws.{OneValueIsPrinted, PlainTextStands, SpelledPiecesAreRead};

/// Each spelling of a piece is read as that piece, whatever follows it.
pub fn spelled_pieces_are_read()
    ensures { SpelledPiecesAreRead }
{}

/// A format string without a percent sign is returned unchanged.
pub fn plain_text_stands()
    ensures { PlainTextStands }
{}

/// `%s` alone prints the text of a value, or is an error that names the kind without one.
pub fn one_value_is_printed()
    ensures { OneValueIsPrinted }
{}
