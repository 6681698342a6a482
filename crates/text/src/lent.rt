// The error of a function that writes a whole text to the caller's bytes.
use std::error::Error;
use std::fmt;

// The bytes passed are fewer than the limit, and stay as they were.
#[derive(Clone, Copy, Debug, PartialEq, Eq, Drop)]
pub struct TextTooShort;

impl fmt::Display for TextTooShort {
    fn fmt<W: fmt::Write>(&self, f: &mut fmt::Formatter<W>) -> fmt::Result {
        write!(f, "the text buffer is too short")
    }
}

impl Error for TextTooShort {}
