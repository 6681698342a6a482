// The walk over the starts of windows, and over the entries of each.
ghost use Rattle.std.specs.Prelude.{◌≡◌, map, ◌≤◌, Ok};
ghost use Rattle.chain.specs.Values.{value_of};
ghost use Rattle.limits.specs.Limits.{window_limit};
ghost use Rattle.chain.specs.Windows.{window_from};
ghost use Rattle.readers.specs.Along.{chain_words};

use crate::words::Words;
use readers::log::Log;
use records::entry::Entry;
use records::numbers::ReadingPlace;
use records::packed::Packed;

// The sum is kept from one start to the next: the first value is taken off, and the walk over the words goes on where it was. Both loops
// are left by the label 'starts, as docs/DECISIONS.md, "Forms", says, and `held` falls again at each start, so that no range counts it.
pub fn first_over(log: Log<'_>, length: u64, limit: u64) -> Option<ReadingPlace>
    requires some { 1 ≤ length }
    requires few { length ≤ window_limit }
    ensures { Ok result ≡ window_from length limit 0 (map value_of (chain_words log.entry.state.now log.entry.entries.now log.entry.head)) }
{
    let mut answer = None;
    let mut past = Words::of(log);
    let mut held: u64 = 0;
    let mut sum: u64 = 0;
    'starts: for (start, first) in Words::of(log).enumerate() {
        while held < length {
            let Some(word) = past.next() else {
                break 'starts;
            };
            let entry = Entry::of_word(word);
            sum += entry.value;
            held += 1;
        }
        if limit < sum {
            answer = Some(ReadingPlace(start as u64));
            break 'starts;
        }
        sum -= Entry::of_word(first).value;
        held -= 1;
    }
    answer
}
