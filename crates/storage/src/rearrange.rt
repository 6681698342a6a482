// Words to bytes: the difference of each word from the word before it, then the bytes of these, plane by plane.
ghost use Rattle.std.specs.Prelude.{◌≡◌, ◌-◌, ◌*◌, ◌<◌, ◌≤◌, length};
ghost use Rattle.limits.specs.Limits.{rearrange_limit};
ghost use Rattle.storage.specs.Storage.{differences, plane, rearrangement, storage_answer, bytes_after};

use chain::answer::{Answer, Refusal};

const PLANES: usize = 8;

// Plane j. The first has the most significant bytes. Each byte is written by its index: after a zip with `iter_mut` std says nothing of
// what was written.
fn write_plane(words: &[u64], bytes: &mut [u8], j: usize)
    requires { (j < 8) × (length bytes.old ≡ length words.now) }
    ensures { bytes.new ≡ plane (7 - j) (differences words.now) }
{
    let shift = 56 - 8 * j;
    let mut before: u64 = 0;
    for (i, &word) in words.iter().enumerate() {
        let difference = word.wrapping_sub(before);
        bytes[i] = ((difference >> shift) % 256) as u8;
        before = word;
    }
}

// Plane after plane, so that all bytes are written in one order and the words are read in theirs. The planes go by their number: there may be no
// words, and `chunks_mut` takes no length of 0.
fn write_planes(words: &[u64], bytes: &mut [u8])
    requires { (length words.now ≤ rearrange_limit) × (length bytes.old ≡ 8 * length words.now) }
    ensures { bytes.new ≡ rearrangement words.now }
{
    let n = words.len();
    for j in 0..PLANES {
        write_plane(words, &mut bytes[j * n..(j + 1) * n], j);
    }
}

#[tactic(auto, unfolding(crate::specs::Storage::storage_answer, crate::specs::Storage::bytes_after))]
pub fn rearrange(words: &[u64], bytes: &mut [u8]) -> Answer
    ensures answers { result ≡ storage_answer (length words.now) (length bytes.old) }
    ensures writes { bytes.new ≡ bytes_after words.now bytes.old }
{
    if crate::size::is_wrong(words.len(), bytes.len()) {
        return Answer::Refused(Refusal::StorageLength);
    }
    write_planes(words, bytes);
    Answer::Done
}
