// The first checks of every operation on marks: the lengths of all three buffers, and then their contents.
ghost use Rattle.std.specs.Prelude.{◌≡◌, []};
ghost use Rattle.chain.specs.Verdicts.{verdict};
ghost use Rattle.chain.specs.Operations.{buffers};
ghost use Rattle.chain.specs.Marks.{marks_checks};
ghost use Rattle.marks.specs.Placed.{free_place, kept_place};

use crate::pairs::LENGTH;
use chain::answer::Refusal;

pub fn marks_verdict(state: &[u64], entries: &[u64], marks: &[u64]) -> Result<(), Refusal>
    ensures { result ≡ verdict (marks_checks (buffers state.now entries.now) marks.now []) }
{
    let right_length = marks.len() == LENGTH;
    wellformed::third::verdict(state, entries, right_length, |head| {
        crate::form::marks_fit(marks, head.entry_count)
    })
}

// The checks of set: the name must be free, and there must be room. Then the index of the first free pair.
pub fn free_place(
    state: &[u64],
    entries: &[u64],
    marks: &[u64],
    name: u64,
) -> Result<usize, Refusal>
    ensures { result ≡ free_place name (buffers state.now entries.now) marks.now }
{
    marks_verdict(state, entries, marks)?;
    let pairs = crate::pairs::pairs_of(marks);
    let taken = crate::pairs::has_name(pairs, name);
    if (name == 0) | taken {
        return Err(Refusal::MarkNameTaken);
    }
    crate::pairs::place_of(pairs, 0).ok_or(Refusal::MarksFull)
}

// The checks of drop: the name must belong to a mark. Then the index of its pair.
pub fn kept_place(
    state: &[u64],
    entries: &[u64],
    marks: &[u64],
    name: u64,
) -> Result<usize, Refusal>
    ensures { result ≡ kept_place name (buffers state.now entries.now) marks.now }
{
    marks_verdict(state, entries, marks)?;
    let pairs = crate::pairs::pairs_of(marks);
    crate::pairs::mark_of(pairs, name).ok_or(Refusal::MarkNotKept)
}
