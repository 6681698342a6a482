// What a text says that is exactly a sentence.

// Numbers and no enums of steps and refusals: the promise `ReadsSentences` speaks of any three numbers, and `cindrolf_read_sentence` hands
// these on to C.
#[derive(Clone, Copy, Debug, PartialEq, Eq, Drop)]
pub struct SentenceNumbers {
    pub step: u64,
    pub client: u64,
    pub refusal: u64,
}
