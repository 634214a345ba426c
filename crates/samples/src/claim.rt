// What the original answered, as a claim about a model.

// Symbols, starts and lengths are whole numbers of no type, so that one claim serves every make of model.
#[derive(Clone, Copy, Debug, PartialEq, Eq)]
pub enum Claim {
    // a symbol has this start and length, or is outside
    Encoded(i128, Option<(u64, u64)>),
    // a quantile belongs to this symbol, with this start and length
    Searched(u64, (i128, u64, u64)),
    // a symbol has the probability with these bits
    Likely(i128, u64),
}
