// The start of an input: its length and its first line.
ghost use Rattle.std.specs.Prelude.{◌≡◌, true};
ghost use Rattle.requests.specs.Lines.{line};
ghost use Rattle.requests.specs.Opening.{client_count};
ghost use Rattle.requests.specs.Starts.{error_words, Opens};

use crate::input::Lines;
use limits::{CLIENT_LIMIT, INPUT_LIMIT, LARGE_CAPACITY};
use std::error::Error;
use std::fmt;

// The words of the entry buffer of a session's log.
pub const CAPACITY: usize = LARGE_CAPACITY;

// How a session begins: its client count, and the lines after the first.
#[derive(Clone, Copy, Debug, PartialEq, Eq, Drop)]
pub struct Beginning<'a> {
    pub clients: u64,
    pub lines: Lines<'a>,
}

// Why an input is no session.
#[derive(Clone, Copy, Debug, PartialEq, Eq)]
pub enum StartError {
    TooLong,
    BadStart,
}

impl StartError {
    // What is printed in place of a session.
    pub fn words(self) -> &'static str
        ensures { result.now ≡ error_words self }
    {
        match self {
            StartError::TooLong => "too long",
            StartError::BadStart => "bad start",
        }
    }
}

impl fmt::Display for StartError {
    fn fmt<W: fmt::Write>(&self, f: &mut fmt::Formatter<W>) -> fmt::Result {
        f.write_str(self.words())
    }
}

impl Error for StartError {}

// The client count of a first line, which comes without the byte that ends it.
#[tactic(auto, unfolding(crate::specs::Opening::client_count))]
fn client_count(bytes: &[u8]) -> Option<u64>
    ensures { result ≡ client_count (line bytes.now true) }
{
    text::decimal::parse_decimal(bytes).filter(|n| 0 < *n && *n <= CLIENT_LIMIT)
}

pub fn start_of(input: &[u8]) -> Result<Beginning, StartError>
    ensures { Opens input.now result }
{
    if INPUT_LIMIT < input.len() {
        return Err(StartError::TooLong);
    }
    let end = text::find::first_place(input, crate::LINE_END).ok_or(StartError::BadStart)?;
    let clients = client_count(&input[..end]).ok_or(StartError::BadStart)?;
    Ok(Beginning {
        clients,
        lines: Lines::of(&input[end + 1..]),
    })
}
