// A refusal in words, and what a sentence says. It uses no log.
ghost use Rattle.std.specs.Prelude.{◌≡◌};
ghost use Rattle.capi.specs.Calls.{SentenceCall, ReadSentenceCall};

use chain::answer::Refusal;
use sentences::answer::SentenceNumbers;

// The answer, done or a refusal; and how many bytes the sentence has, 0 on a refusal.
#[repr(C)]
#[derive(Clone, Copy, Debug, PartialEq, Eq)]
pub struct SentenceBytes {
    pub answer: u64,
    pub length: u64,
}

impl From<Result<u64, Refusal>> for SentenceBytes {
    ghost use Rattle.sentences.specs.Sentences.{sentence_number, sentence_length};

    ghost from_gives = { λ a written. (written.answer ≡ sentence_number a) × (written.length ≡ sentence_length a) };

    fn from(a: Result<u64, Refusal>) -> SentenceBytes {
        SentenceBytes {
            answer: crate::number::status(&a),
            length: a.unwrap_or(0),
        }
    }
}

pub fn cindrolf_sentence(step: u64, client: u64, refusal: u64, text: &mut [u8]) -> SentenceBytes
    ensures { SentenceCall step client refusal text.old result.answer result.length text.new }
{
    let a = sentences::sentence(step, client, refusal, text);
    SentenceBytes::from(a)
}

// 1 where a text is exactly a sentence, with its step, its client and its refusal; each 0 where it is none.
#[repr(C)]
#[derive(Clone, Copy, Debug, PartialEq, Eq)]
pub struct SentenceSaid {
    pub found: u64,
    pub step: u64,
    pub client: u64,
    pub refusal: u64,
}

impl From<Option<SentenceNumbers>> for SentenceSaid {
    ghost use Rattle.sentences.specs.Read.{sentence_found, sentence_step, sentence_client, sentence_refusal};

    ghost from_gives = { λ a said. (said.found ≡ sentence_found a) × ((said.step ≡ sentence_step a)
        × ((said.client ≡ sentence_client a) × (said.refusal ≡ sentence_refusal a))) };

    fn from(a: Option<SentenceNumbers>) -> SentenceSaid {
        SentenceSaid {
            found: u64::from(a.is_some()),
            step: a.map_or(0, |n| n.step),
            client: a.map_or(0, |n| n.client),
            refusal: a.map_or(0, |n| n.refusal),
        }
    }
}

pub fn cindrolf_read_sentence(text: &[u8]) -> SentenceSaid
    ensures { ReadSentenceCall text.now result.found result.step result.client result.refusal }
{
    let a = sentences::read::read_sentence(text);
    SentenceSaid::from(a)
}
