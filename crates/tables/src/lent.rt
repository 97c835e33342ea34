// The six tables that a caller lends for a call.
ghost use Rattle.std.specs.Prelude.{◌≡◌};

#[derive(Drop)]
pub struct LentTables<'a> {
    pub head: &'a mut [u64],
    pub prices: &'a mut [u64],
    pub lots: &'a mut [i64],
    pub value: &'a mut [i64],
    pub book: &'a mut [u64],
    pub lines: &'a mut [i64],
}

// Each table to be read: of a field that is itself passed as `&[u64]` the check no longer knows that it stays.
impl LentTables<'_> {
    pub fn head(&self) -> &[u64]
        ensures { result.now ≡ self.now.head.now }
    {
        self.head
    }

    pub fn prices(&self) -> &[u64]
        ensures { result.now ≡ self.now.prices.now }
    {
        self.prices
    }

    pub fn lots(&self) -> &[i64]
        ensures { result.now ≡ self.now.lots.now }
    {
        self.lots
    }

    pub fn value(&self) -> &[i64]
        ensures { result.now ≡ self.now.value.now }
    {
        self.value
    }

    pub fn book(&self) -> &[u64]
        ensures { result.now ≡ self.now.book.now }
    {
        self.book
    }

    pub fn lines(&self) -> &[i64]
        ensures { result.now ≡ self.now.lines.now }
    {
        self.lines
    }
}
