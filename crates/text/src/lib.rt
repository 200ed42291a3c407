// Text as bytes: words, decimals without leading zeros and lower-case hex, read from a slice and put into a lent buffer.
// A put function stores the whole text where it fits and returns the position after it; where it does not fit, it stores
// nothing and returns the position unchanged.
#![tactic(auto)]

pub mod decimal;
pub mod hex;
pub mod words;
