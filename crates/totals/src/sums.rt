// The sum of the values of entry words.
ghost use Rattle.std.specs.Prelude.{◌≡◌, ◌≤◌, length};
ghost use Rattle.limits.specs.Limits.{large_capacity};
ghost use Rattle.chain.specs.Values.{sum_of};

use records::entry::Entry;
use records::packed::Packed;

// As many values as a log holds stay in 64 bits.
pub fn sum_of(words: &[u64]) -> u64
    requires { length words.now ≤ large_capacity }
    ensures { result ≡ sum_of words.now }
{
    words.iter().map(|&w| Entry::of_word(w).value).sum()
}
