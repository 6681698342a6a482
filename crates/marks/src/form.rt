// Whether marks are well formed: kept marks first, each with a count up to the log's and a different name, and then zero pairs.
ghost use Rattle.std.specs.Prelude.{◌≡◌, map};
ghost use Rattle.chain.specs.Marks.{pairs_of, all_zero, fits, well_marked};
ghost use Rattle.marks.specs.Pairs.{pair_in};

// The unit of a mark's count: its lowest bit.
pub const COUNT_UNIT: u64 = 1 << 51;

fn count_fits(count: u64, word: u64) -> bool
    ensures { result ≡ fits count word }
{
    (word % COUNT_UNIT == 0) & (word / COUNT_UNIT <= count)
}

fn all_zero(pairs: &[[u64; 2]]) -> bool
    ensures { result ≡ all_zero (map pair_in pairs.now) }
{
    pairs.iter().all(|pair| (pair[0] == 0) & (pair[1] == 0))
}

// Each name is compared with those after it, so 32 names take 496 comparisons.
pub fn marks_fit(marks: &[u64], count: u64) -> bool
    ensures { result ≡ well_marked count (pairs_of marks.now) }
{
    let mut rest = crate::pairs::pairs_of(marks);
    while let Some((pair, after)) = rest.split_first() {
        let [name, word] = *pair;
        if name == 0 {
            return all_zero(rest);
        }
        if !count_fits(count, word) {
            return false;
        }
        if crate::pairs::has_name(after, name) {
            return false;
        }
        rest = after;
    }
    true
}
