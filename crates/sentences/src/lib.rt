// A refusal in words: one sentence of fixed phrases for step and reason and of the client's number, written to a text buffer and read back.
#![tactic(auto)]

pub mod answer;
mod phrase;
mod put;
pub mod read;

ghost use Rattle.std.specs.Prelude.{◌≡◌};
ghost use Rattle.text.specs.Puts.{Puts, Room};
ghost use Rattle.checks.specs.Test.{Fails, test};
ghost use Rattle.chain.specs.Verdicts.{verdict};
ghost use Rattle.sentences.specs.Sentences.{sentence, unsaid, sentence_checks, sentence_answer, sentence_text};

use chain::answer::Refusal;
use chain::kind::Kind;
use put::{put_name, put_reason};
use text::writer::Writer;

// The fewest bytes of a text buffer, and the last number of a step, of a client and of a refusal.
pub const FEWEST_BYTES: usize = 96;

const LAST_STEP: u64 = Kind::CloseOwn as u64;

const LAST_CLIENT: u64 = 255;

const LAST_REFUSAL: u64 = Refusal::NoSentence as u64;

fn is_unsaid(step: u64, client: u64, refusal: u64) -> bool
    ensures { result ≡ test (unsaid step client refusal) }
{
    step > LAST_STEP || client > LAST_CLIENT || refusal == 0 || refusal > LAST_REFUSAL
}

fn put_sentence(to: &mut Writer, step: u64, client: u64, refusal: u64)
    requires numbers { Fails (unsaid step client refusal) }
    requires room { Room to.old.text.now to.old.at (sentence step client refusal) }
    ensures puts { Puts to.old.text.now to.old.at (sentence step client refusal) to.new.text.now to.new.at }
    ensures same_text { to.new.text.ghost_name ≡ to.old.text.ghost_name }
{
    put_name(to, step);
    to.put_phrase(b" of client ");
    to.put_decimal(client);
    to.put_phrase(b": ");
    put_reason(to, refusal);
}

// Refusal 27 comes before 28. The C interface's `cindrolf_sentence` passes any numbers: 28 refuses those that have no sentence.
fn check(step: u64, client: u64, refusal: u64, text: &[u8]) -> Result<(), Refusal>
    ensures { result ≡ verdict (sentence_checks step client refusal text.now) }
{
    if text.len() < FEWEST_BYTES {
        return Err(Refusal::TextTooShort);
    }
    if is_unsaid(step, client, refusal) {
        return Err(Refusal::NoSentence);
    }
    Ok(())
}

pub fn sentence(step: u64, client: u64, refusal: u64, text: &mut [u8]) -> Result<u64, Refusal>
    ensures answer { result ≡ sentence_answer step client refusal text.old }
    ensures text { text.new ≡ sentence_text step client refusal text.old }
{
    check(step, client, refusal, text)?;
    let mut to = Writer { text, at: 0 };
    put_sentence(&mut to, step, client, refusal);
    Ok(to.at as u64)
}
