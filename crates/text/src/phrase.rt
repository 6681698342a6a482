// A fixed phrase, compared. This is the library's `==`, promised in the words of `same_bytes`, which `Read.read_sentence` and the laws of
// phrases speak of; `PhraseLaws.equal-is` is the proof that the two are the same.
ghost use Rattle.std.specs.Prelude.{◌≡◌};
ghost use Rattle.text.specs.Phrase.{same_bytes};

pub fn is_phrase(bytes: &[u8], phrase: &[u8]) -> bool
    ensures { result ≡ same_bytes bytes.now phrase.now }
{
    bytes == phrase
}
