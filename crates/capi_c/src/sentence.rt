// A refusal in words, and what a sentence says. It uses no log.
ghost use Rattle.capi.specs.Calls.{SentenceCall, ReadSentenceCall};

use capi::sentence::{SentenceBytes, SentenceSaid};

#[unsafe(no_mangle)]
pub extern "C" fn cindrolf_sentence(
    step: u64,
    client: u64,
    refusal: u64,
    text: &mut [u8],
) -> SentenceBytes
    ensures { SentenceCall step client refusal text.old result.answer result.length text.new }
{
    capi::sentence::cindrolf_sentence(step, client, refusal, text)
}

#[unsafe(no_mangle)]
pub extern "C" fn cindrolf_read_sentence(text: &[u8]) -> SentenceSaid
    ensures { ReadSentenceCall text.now result.found result.step result.client result.refusal }
{
    capi::sentence::cindrolf_read_sentence(text)
}
