// Records one after the other: where the first ends.
ghost use Rattle.std.specs.Prelude.{◌≡◌};
ghost use Rattle.rules.specs.Records.{front_of};

use big_endian::u8_or_zero;
use record_kinds::places::{KIND_BYTE, PROPOSAL_LEGS_BYTE};
use record_kinds::record_length;
use rules::Front;

// The record at the front: its length follows from its kind and, of a proposal, its number of legs.
pub fn front_record(bytes: &[u8]) -> Front
    ensures { result ≡ front_of bytes.now }
{
    if bytes.is_empty() {
        return Front::Cut;
    }
    let n = record_length(
        u8_or_zero(bytes, KIND_BYTE),
        u8_or_zero(bytes, PROPOSAL_LEGS_BYTE),
    );
    if n == 0 {
        return Front::UnknownKind;
    }
    if n <= bytes.len() as u64 {
        return Front::Whole(n);
    }
    Front::Cut
}
