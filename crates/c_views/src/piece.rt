//! What a step of a vacuum did.

ghost use Rattle.std.specs.Prelude.{◌≡◌};
ghost use Rattle.c_views.specs.Pieces.{shown_piece};

use session_core::Piece;

/// What a step of a vacuum did, by its kind. Kind 1 visited the page of this number. Kind 2 removed entries from the index of this number.
/// Kind 3 freed slots of the page of this number. At kind 0 the vacuum has ended. Fields that do not apply are 0.
#[repr(C)]
#[derive(Clone, Copy)]
pub struct SandpiperPiece {
    pub kind: u32,
    pub number: u32,
    /// The oldest id that is remembered, once the vacuum has ended.
    pub oldest: u32,
}

/// What C reads of what a step did.
pub fn of_piece(piece: Piece) -> SandpiperPiece
    ensures { result ≡ shown_piece piece }
{
    match piece {
        Piece::Heap(page) => SandpiperPiece {
            kind: 1,
            number: page,
            oldest: 0,
        },
        Piece::Index(index) => SandpiperPiece {
            kind: 2,
            number: index as u32,
            oldest: 0,
        },
        Piece::Free(page) => SandpiperPiece {
            kind: 3,
            number: page,
            oldest: 0,
        },
    }
}
