// Where the bytes of the next record end.
ghost use Rattle.std.specs.Prelude.{◌≡◌, length};
ghost use Rattle.listing.specs.Pieces.{piece_of, piece_fits};

use codec::front_record;
use rules::Front;

// No Option: that more may come and that none does are two cases, and the program does not go on alike in them.
#[derive(Clone, Copy)]
pub enum Piece {
    // So many bytes are to be listed as one record.
    Record(usize),
    // Less than a record is there, and more may come.
    More,
    End,
}

// What to list at the front of the bytes; is_last says that no more come.
pub fn next_piece(bytes: &[u8], is_last: bool) -> Piece
    ensures { (result ≡ piece_of is_last bytes.now) × piece_fits result (length bytes.now) }
{
    match front_record(bytes) {
        Front::Whole(n) => Piece::Record(n as usize),
        Front::UnknownKind => Piece::Record(1),
        Front::Cut => {
            if !is_last {
                return Piece::More;
            }
            if bytes.len() == 0 {
                return Piece::End;
            }
            Piece::Record(bytes.len())
        }
    }
}
