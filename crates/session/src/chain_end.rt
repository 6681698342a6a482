// The end of a session: its chain, read from the log and printed.
ghost use Rattle.std.specs.Prelude.{◌≡◌};
ghost use Rattle.text.specs.Puts.{Puts, Room};
ghost use Rattle.chain.specs.Operations.{buffers, chain_reading};
ghost use Rattle.replies.specs.Replies.{chain_line};
ghost use Rattle.session.specs.Owed.{Reads};

use text::writer::Writer;

// By `reads` the log is one that read chain does not refuse, and the reading's buffer is long enough: there is no other case.
pub fn put_chain(state: &[u64], entries: &[u64], reading: &mut [u64], to: &mut Writer)
    requires reads { Reads (buffers state.now entries.now) reading.old }
    requires room { Room to.old.text.now to.old.at (chain_line (chain_reading (buffers state.now entries.now))) }
    ensures puts { Puts to.old.text.now to.old.at
        (chain_line (chain_reading (buffers state.now entries.now))) to.new.text.now to.new.at }
    ensures same_text { to.new.text.ghost_name ≡ to.old.text.ghost_name }
{
    if let Ok(count) = readers::read_chain::read_chain(state, entries, reading) {
        replies::chain_line::put_chain_line(to, &reading[..count as usize]);
    }
}
