// A sentence read back: its fixed phrases are compared in place, and the client's number is read between them.
ghost use Rattle.std.specs.Prelude.{◌≡◌};
ghost use Rattle.std.specs.List.{position};
ghost use Rattle.text.specs.Phrase.{same_bytes};
ghost use Rattle.sentences.specs.Phrases.{step_names, reasons};
ghost use Rattle.sentences.specs.Read.{begins, client_of, read_sentence};

use crate::answer::SentenceNumbers;
use crate::phrase::{name, names, reasons};
use text::phrase::is_phrase;

// The step whose name begins the text. No name begins another, so the first is the only one.
fn step_of(bytes: &[u8]) -> Option<usize>
    ensures { result ≡ position (begins bytes.now) step_names }
{
    names().iter().position(|name| bytes.starts_with(name))
}

// The place, from 0, of the reason that is the whole text. By `is_phrase` and not `==`: its contract says it by `same_bytes`, the word of
// the definition, and text/must-fail/takes_a_longer_text.edit tries it.
fn reason_place(bytes: &[u8]) -> Option<usize>
    ensures { result ≡ position (same_bytes bytes.now) reasons }
{
    reasons().iter().position(|reason| is_phrase(bytes, reason))
}

// The client that a numeral names, if there may be one.
fn client_of(numeral: &[u8]) -> Option<u64>
    ensures { result ≡ client_of numeral.now }
{
    text::decimal::parse_decimal(numeral).filter(|&c| c <= crate::LAST_CLIENT)
}

// Of a text of any length. The name is sliced off, since `step_of` has compared it; the client's numeral ends before the first colon.
pub fn read_sentence(bytes: &[u8]) -> Option<SentenceNumbers>
    ensures { result ≡ read_sentence bytes.now }
{
    let step = step_of(bytes)?;
    let bytes = &bytes[name(step).len()..];
    let bytes = bytes.strip_prefix(b" of client ")?;
    let colon = text::find::first_place(bytes, b':')?;
    let client = client_of(&bytes[..colon])?;
    let reason = bytes[colon..].strip_prefix(b": ")?;
    let place = reason_place(reason)?;
    Some(SentenceNumbers {
        step: step as u64,
        client,
        refusal: place as u64 + 1,
    })
}
