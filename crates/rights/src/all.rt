// All ten rights of each client below the count, for a caller that passes all.
ghost use Rattle.std.specs.Prelude.{◌≡◌, length};
ghost use Rattle.chain.specs.Buffers.{head};
ghost use Rattle.chain.specs.Rights.{all_rights};
ghost use Rattle.rights.specs.All.{word_for, granted};

fn word_for(client: u64, count: u64) -> u64
    ensures { result ≡ word_for count client }
{
    if client < count {
        crate::EVERY_RIGHT
    } else {
        0
    }
}

// Buffers of any length are filled: a step refuses one that is not of 16 words.
pub fn grant_all(rights: &mut [u64], count: u64)
    ensures { rights.new ≡ granted count (length rights.old) }
{
    for (i, word) in rights.iter_mut().enumerate() {
        *word = word_for(i as u64, count);
    }
}

// By the client count in a state buffer, whatever else the buffer holds.
pub fn grant_all_of(state: &[u64], rights: &mut [u64])
    ensures { rights.new ≡ granted (head state.now).client_count (length rights.old) }
{
    let h = records::head::load_head(state);
    grant_all(rights, h.client_count)
}

// The same as a buffer of the length that a step takes: by a client count, and by that of a state buffer.
pub fn all_for(count: u64) -> [u64; crate::LENGTH]
    ensures { result ≡ all_rights count }
{
    let mut rights = [0; crate::LENGTH];
    grant_all(&mut rights, count);
    rights
}

pub fn all_of(state: &[u64]) -> [u64; crate::LENGTH]
    ensures { result ≡ all_rights (head state.now).client_count }
{
    let h = records::head::load_head(state);
    all_for(h.client_count)
}
