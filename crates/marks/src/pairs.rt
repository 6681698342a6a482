// The pairs of the marks buffer, of a name and the word with its count: whether a name is among them, and where.
ghost use Rattle.std.specs.Prelude.{◌≡◌, map};
ghost use Rattle.chain.specs.Marks.{pairs_of, among};
ghost use Rattle.marks.specs.Pairs.{pair_in, place, mark};

// How many words the buffer has: two for each of 32 marks.
pub const LENGTH: usize = 64;

pub fn pairs_of(marks: &[u64]) -> &[[u64; 2]]
    ensures { map pair_in result.now ≡ pairs_of marks.now }
{
    marks.as_chunks::<2>().0
}

pub fn has_name(pairs: &[[u64; 2]], name: u64) -> bool
    ensures { result ≡ among name (map pair_in pairs.now) }
{
    pairs.iter().any(|pair| pair[0] == name)
}

// The index of the first pair with a name.
pub fn place_of(pairs: &[[u64; 2]], name: u64) -> Option<usize>
    ensures { result ≡ place name (map pair_in pairs.now) }
{
    pairs.iter().position(|pair| pair[0] == name)
}

// The same for the name of a mark. All zero is none, though every free pair has it.
pub fn mark_of(pairs: &[[u64; 2]], name: u64) -> Option<usize>
    ensures { result ≡ mark name (map pair_in pairs.now) }
{
    if name == 0 {
        None
    } else {
        place_of(pairs, name)
    }
}
