// The names of fields, and the words for what a byte stands for.
ghost use Rattle.std.specs.Prelude.{◌+◌, ◌≤◌, length};
ghost use Rattle.listing_numbers.specs.Short.{Short};
ghost use Rattle.listing_words.specs.Word.{IsWord};
ghost use Rattle.listing_words.specs.Words.{name_of, kind_word, side_word, order_kind_word};

use rules::Field;
use rules::kinds::{CANCEL, CLOSE_OUT, DAY_LIMITS, DEFAULT, PROPOSAL, SUBMIT};
use text::put_bytes;

// Each word has at most 24 letters.
pub fn name_of(field: Field) -> &'static [u8]
    ensures { IsWord (name_of field) result.now }
{
    match field {
        Field::LetterV | Field::LetterJ | Field::LetterR => b" letter",
        Field::Version => b" version",
        Field::FirstYear => b" first year",
        Field::StartDay => b" start day",
        Field::Members => b" members",
        Field::HolidayCount => b" holidays",
        Field::Holiday => b" holiday",
        Field::Limit => b" limit",
        Field::Kind => b" kind",
        Field::Time => b" time",
        Field::Member => b" member",
        Field::Contract => b" contract",
        Field::Side => b" side",
        Field::OrderKind => b" order kind",
        Field::Price => b" price",
        Field::Lots => b" lots",
        Field::Order => b" order",
        Field::Low => b" low",
        Field::High => b" high",
        Field::Legs => b" legs",
        Field::Ratio => b" ratio",
    }
}

#[tactic(auto, unfolding(crate::specs::Words::kind_word))]
pub fn kind_word(kind: u64) -> &'static [u8]
    ensures { IsWord (kind_word kind) result.now }
{
    match kind {
        SUBMIT => b" submit",
        CANCEL => b" cancel",
        DAY_LIMITS => b" day limits",
        PROPOSAL => b" proposal",
        DEFAULT => b" default",
        CLOSE_OUT => b" close-out",
        _ => b" close of day",
    }
}

#[tactic(auto, unfolding(crate::specs::Words::side_word))]
pub fn side_word(side: u64) -> &'static [u8]
    ensures { IsWord (side_word side) result.now }
{
    match side {
        0 => b" buy",
        _ => b" sell",
    }
}

#[tactic(auto, unfolding(crate::specs::Words::order_kind_word))]
pub fn order_kind_word(kind: u64) -> &'static [u8]
    ensures { IsWord (order_kind_word kind) result.now }
{
    match kind {
        0 => b" resting",
        1 => b" OEYE",
        _ => b" TEYE",
    }
}

pub fn put_word(out: &mut [u8], place: usize, word: &[u8]) -> usize
    requires { (place + 24 ≤ length out.old) × (length word.now ≤ 24) }
    ensures { Short 24 place word.now out.old out.new result }
{
    put_bytes(out, place, word)
}
