// A line of the session, read as a step.
#![tactic(auto)]

ghost use Rattle.std.specs.Prelude.{◌≡◌};
ghost use Rattle.grammar.specs.Grammar.{with_client, letter_kind, client_step, write_step, parse_write, parse_line};

use chain::kind::Kind;
use dispatch::Step;
use text::decimal::parse_decimal;
use text::find::first_place;

// A line names clients 0 to 255, whether or not the log has them.
const CLIENT_NUMBERS: u64 = 256;

#[tactic(auto, unfolding(crate::specs::Grammar::with_client))]
fn with_client(client: u64, step: Option<Step>) -> Option<Step>
    ensures { result ≡ with_client client step }
{
    if client < CLIENT_NUMBERS { step } else { None }
}

// The kind of a step that brings nothing. A function and no `TryFrom`: `Kind` is of `chain`, so the impl would need a type of its own for
// the letter, and an error that no caller reads: `parse_line` answers none of a bad line.
#[tactic(auto, unfolding(crate::specs::Grammar::letter_kind))]
fn letter_kind(letter: u8) -> Option<Kind>
    ensures { result ≡ letter_kind letter }
{
    match letter {
        b'N' => Some(Kind::Name),
        b'B' => Some(Kind::Become),
        b'A' => Some(Kind::Abdicate),
        b'F' => Some(Kind::Fetch),
        b'L' => Some(Kind::CloseLast),
        b'K' => Some(Kind::Finish),
        b'C' => Some(Kind::Create),
        b'P' => Some(Kind::Append),
        b'O' => Some(Kind::CloseOwn),
        _ => None,
    }
}

fn client_step(letter: u8, client: Option<u64>) -> Option<Step>
    ensures { result ≡ client_step letter client }
{
    let client = client?;
    let kind = letter_kind(letter)?;
    with_client(client, Some(Step::new(client, kind)))
}

fn write_step(client: Option<u64>, value: Option<u64>) -> Option<Step>
    ensures { result ≡ write_step client value }
{
    let client = client?;
    let value = value?;
    with_client(client, Some(Step::write(client, value)))
}

// What follows the letter W and its space: a client, a space and a value.
fn parse_write(rest: &[u8]) -> Option<Step>
    ensures { result ≡ parse_write rest.now }
{
    let space = first_place(rest, b' ')?;
    let client = parse_decimal(&rest[..space]);
    let value = parse_decimal(&rest[space + 1..]);
    write_step(client, value)
}

// The step of a line, which comes without the byte 10 that ends it; none of a bad line.
pub fn parse_line(line: &[u8]) -> Option<Step>
    ensures { result ≡ parse_line line.now }
{
    let [letter, space, rest @ ..] = line else {
        return None;
    };
    if *space != b' ' {
        return None;
    }
    if *letter == b'W' {
        return parse_write(rest);
    }
    client_step(*letter, parse_decimal(rest))
}
