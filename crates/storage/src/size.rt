// The accepted lengths: up to 4,096 words, and eight bytes for each.
ghost use Rattle.std.specs.Prelude.{◌≡◌};
ghost use Rattle.checks.specs.Test.{test};
ghost use Rattle.storage.specs.Storage.{wrong_length};

use limits::REARRANGE_LIMIT;

pub fn is_wrong(words: usize, bytes: usize) -> bool
    ensures { result ≡ test (wrong_length words bytes) }
{
    REARRANGE_LIMIT < words || bytes != 8 * words
}
