//! What holds of pieces and of joined messages.

ghost use Rattle.std.specs.Prelude.{◌≡◌, ◌<◌, ◌≤◌, ℕ, List, ◌∷◌, All, IsPermutation, Ok, length, map};
ghost use Rattle.std.specs.List.{count_by, sum_by};
ghost use Rattle.ab_num.specs.declared.party.Party.{Party};
ghost use Rattle.ab_form.specs.Formats.{IsBytes};
ghost use Rattle.ab_piece.specs.Arrivals.{AreArrivals, Arrival, IsClosed, all_indices, answers, expected, own};
ghost use Rattle.ab_piece.specs.Bounds.{IsShort, kept_from, kept_of};
ghost use Rattle.ab_piece.specs.Joining.{is_from, open_after, step_of, whole};
ghost use Rattle.ab_piece.specs.Pieces.{IsCut, IsPiece, Piece, count_of, cut_at, piece_at, piece_of, spell_piece};
ghost use Rattle.ab_piece.specs.Wholes.{IsWholeOf};

/// A piece is read exactly from its one spelling.
pub fn pieces_are_read()
    ensures spelled { (bytes : List ℕ) (p : Piece) → IsBytes bytes → piece_of bytes ≡ Ok p → (bytes ≡ spell_piece p) × IsPiece p }
    ensures read { (p : Piece) → IsPiece p → piece_of (spell_piece p) ≡ Ok p }
{}

/// Each piece of a message that is cut is read as what it is.
pub fn cut_pieces_are_read()
    ensures { (s : Party) (n : ℕ) (m : List ℕ) (i : ℕ) → IsCut s n m → i < count_of (length m) → piece_of (cut_at s n m i) ≡ Ok (piece_at s n m i) }
{}

/// What is answered as whole is a message of one sender and number, each of whose pieces came.
pub fn whole_messages_came()
    ensures { (datagrams : List (List ℕ)) (bytes message : List ℕ) → (step_of (open_after datagrams) bytes).answer ≡ whole message → IsWholeOf (bytes ∷ datagrams) message }
{}

/// The pieces of a message may come in any order, by themselves or with other datagrams between them:
/// the last one gives the message, whatever came before.
pub fn cut_messages_come_whole()
    ensures alone { (before : List (List ℕ)) (s : Party) (n : ℕ) (m : List ℕ) (order : List ℕ) → IsClosed s n (open_after before) → IsCut s n m → IsPermutation (all_indices m) order
        → answers (cut_at s n m) (open_after before) (map own order) ≡ expected m }
    ensures mixed { (before : List (List ℕ)) (s : Party) (n : ℕ) (m : List ℕ) (arrivals : List Arrival) → IsClosed s n (open_after before) → AreArrivals s n m arrivals
        → answers (cut_at s n m) (open_after before) arrivals ≡ expected m }
{}

/// Whatever came, what is open is bounded: in messages of a sender, in the pieces of each message, and
/// in the bytes of a sender and of all.
pub fn open_messages_are_bounded()
    ensures few { (datagrams : List (List ℕ)) (sender : Party) → count_by (is_from sender) (open_after datagrams) ≤ 8 }
    ensures short { (datagrams : List (List ℕ)) → All IsShort (open_after datagrams) }
    ensures kept { (datagrams : List (List ℕ)) (sender : Party) → kept_from sender (open_after datagrams) ≤ 33554432 }
    ensures all { (datagrams : List (List ℕ)) → sum_by kept_of (open_after datagrams) ≤ 771751936 }
{}
