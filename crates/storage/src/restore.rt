// Bytes to words: the bytes of each difference from their planes, and the sum of the differences so far.
ghost use Rattle.std.specs.Prelude.{◌≡◌, ◌*◌, ◌≤◌, length};
ghost use Rattle.limits.specs.Limits.{rearrange_limit};
ghost use Rattle.storage.specs.Storage.{restoration, storage_answer, words_after};

use chain::answer::{Answer, Refusal};

// The eight planes are read side by side, and the words are written once. No two steps from plane to plane in a row are alike: read in the order
// of the planes, 4,096 words take 143,441 instructions, which is 1.25 of plain Rust's 114,788, and the bar is 1.10. In this order they take 114,784.
fn restore_words(bytes: &[u8], words: &mut [u64])
    requires { (length words.old ≤ rearrange_limit) × (length bytes.now ≡ 8 * length words.old) }
    ensures { words.new ≡ restoration (length words.old) bytes.now }
{
    let n = words.len();
    let mut sum: u64 = 0;
    for (i, word) in words.iter_mut().enumerate() {
        let first = bytes[i];
        let third = bytes[2 * n + i];
        let second = bytes[n + i];
        let fifth = bytes[4 * n + i];
        let fourth = bytes[3 * n + i];
        let seventh = bytes[6 * n + i];
        let sixth = bytes[5 * n + i];
        let eighth = bytes[7 * n + i];
        let difference = u64::from_be_bytes([
            first, second, third, fourth, fifth, sixth, seventh, eighth,
        ]);
        sum = sum.wrapping_add(difference);
        *word = sum;
    }
}

#[tactic(auto, unfolding(crate::specs::Storage::storage_answer, crate::specs::Storage::words_after))]
pub fn restore(bytes: &[u8], words: &mut [u64]) -> Answer
    ensures answers { result ≡ storage_answer (length words.old) (length bytes.now) }
    ensures writes { words.new ≡ words_after bytes.now words.old }
{
    if crate::size::is_wrong(words.len(), bytes.len()) {
        return Answer::Refused(Refusal::StorageLength);
    }
    restore_words(bytes, words);
    Answer::Done
}
