// Drop: the marks after it move up, so that no gap is left.
ghost use Rattle.std.specs.Prelude.{◌≡◌, ◌+◌, ◌≤◌, length};
ghost use Rattle.chain.specs.Operations.{buffers};
ghost use Rattle.chain.specs.Marks.{marks_length, drop_answer, after_drop};
ghost use Rattle.marks.specs.Gap.{gap_closed};

use crate::pairs::LENGTH;
use chain::answer::Answer;

// Two words less from one on, and two zero words at the end. The words are moved as words: std's `as_chunks_mut` says nothing of what the whole
// buffer ends as.
fn close_gap(marks: &mut [u64], from: usize)
    requires long { length marks.old ≡ marks_length }
    requires within { from + 2 ≤ marks_length }
    ensures { marks.new ≡ gap_closed marks.old from }
{
    marks.copy_within(from + 2.., from);
    marks[LENGTH - 2..].fill(0);
}

pub fn drop_mark(state: &[u64], entries: &[u64], marks: &mut [u64], name: u64) -> Answer
    ensures answer { result ≡ drop_answer name (buffers state.now entries.now) marks.old }
    ensures words { marks.new ≡ after_drop name (buffers state.now entries.now) marks.old }
{
    match crate::verdict::kept_place(state, entries, marks, name) {
        Err(r) => Answer::Refused(r),
        Ok(p) => {
            close_gap(marks, 2 * p);
            Answer::Done
        }
    }
}
