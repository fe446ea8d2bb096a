//! What the cutting of words into pieces means, for any list of options.
ghost use Rattle.std.specs.Prelude.{◌≡◌, List, Some};
ghost use Rattle.th_words.specs.Pieces.{Word, Piece, pieces_of, words_of, ArePieces};

/// The words that are read are those that pieces are written as: what is read from words writes
/// these words, and what pieces write is read as these pieces.
pub fn pieces_are_as_written()
    ensures written { (names words : List Word) (pieces : List Piece) → pieces_of names words ≡ Some pieces → (words_of pieces ≡ words) × ArePieces names pieces }
    ensures read { (names : List Word) (pieces : List Piece) → ArePieces names pieces → pieces_of names (words_of pieces) ≡ Some pieces }
{}
