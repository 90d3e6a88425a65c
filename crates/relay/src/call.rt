/// One call on a count, as a value. What each call does is the contract of the method of `Count`.
#[derive(Clone, Copy, Debug, PartialEq, Eq)]
pub enum Call<'a> {
    /// `Count::begin`. Bit s of the word: input s is present.
    Begin { word: u64 },
    /// `Count::step` of the statement with this number.
    Step { statement: usize },
    /// `Count::close`.
    Close,
    /// `Count::react`. Bit s of the word: input s is present.
    React { word: u64 },
    /// `Count::take_over` of these bytes.
    TakeOver { record: &'a [u8] },
}
