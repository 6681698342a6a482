// Marks: named points of a run, in a third buffer. The log is only read.
ghost use Rattle.chain.specs.Operations.{buffers};
ghost use Rattle.capi.specs.Calls.{SetMarkCall, DropMarkCall, ReadMarkCall};

use crate::reading::ChainCount;

pub fn cindrolf_mark_set(state: &[u64], entries: &[u64], marks: &mut [u64], name: u64) -> u64
    ensures { SetMarkCall name (buffers state.now entries.now) marks.old result marks.new }
{
    let a = marks::set::set_mark(state, entries, marks, name);
    crate::number::answer_number(a)
}

pub fn cindrolf_mark_drop(state: &[u64], entries: &[u64], marks: &mut [u64], name: u64) -> u64
    ensures { DropMarkCall name (buffers state.now entries.now) marks.old result marks.new }
{
    let a = marks::drop::drop_mark(state, entries, marks, name);
    crate::number::answer_number(a)
}

pub fn cindrolf_mark_read(
    state: &[u64],
    entries: &[u64],
    marks: &[u64],
    name: u64,
    output: &mut [u64],
) -> ChainCount
    ensures { ReadMarkCall name (buffers state.now entries.now) marks.now
        output.old result.answer result.count output.new }
{
    let a = marks::read::read_mark(state, entries, marks, name, output);
    ChainCount::from(a)
}
