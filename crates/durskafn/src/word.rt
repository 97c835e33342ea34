// The words, a program behind each.

#[derive(Clone, Copy)]
pub enum Word {
    Journal,
    Listing,
}

// One more program is one more row.
pub const WORDS: [Word; 2] = [Word::Journal, Word::Listing];

impl Word {
    pub fn named(text: &[u8]) -> Option<Word> {
        match text {
            b"journal" => Some(Word::Journal),
            b"listing" => Some(Word::Listing),
            _ => None,
        }
    }

    pub fn name(self) -> &'static str {
        match self {
            Word::Journal => "journal",
            Word::Listing => "listing",
        }
    }

    pub fn does(self) -> &'static str {
        match self {
            Word::Journal => "runs a journal and prints its deals and refusals",
            Word::Listing => {
                "shows a journal in words, a line a record, and where it is unsound"
            }
        }
    }

    // What its own help says besides.
    pub fn help(self) -> &'static str {
        match self {
            Word::Journal => {
                "H first year, day, members\nD member, contract, lots, kuruş\nR record, number\nE accepted, refused, lots run\n\nWhat is booked is printed before the program waits for more input.\n"
            }
            Word::Listing => {
                "Nothing is booked: a record is listed whether or not the ledger would accept it.\n"
            }
        }
    }
}
