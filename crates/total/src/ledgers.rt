// The listed ledgers, in the order of the list: a line for each. The list and the sums come from the log's own operations.
ghost use Rattle.std.specs.Prelude.{◌≡◌};
ghost use Rattle.text.specs.Puts.{Puts, Room};
ghost use Rattle.chain.specs.Operations.{buffers, held, IsLog};
ghost use Rattle.total.specs.Output.{part_line, ledger_lines};

use limits::PLACE_LIMIT;
use records::numbers::{LedgerNumber, ListPlace};
use text::writer::Writer;

// A refused sum is no line, as `line_of` says; that of a listed ledger of a session's log is never refused (`SumsHistory.ledger`).
fn put_ledger(state: &[u64], entries: &[u64], ledger: LedgerNumber, to: &mut Writer)
    requires { Room to.old.text.now to.old.at (part_line ledger.0 (buffers state.now entries.now)) }
    ensures puts { Puts to.old.text.now to.old.at
        (part_line ledger.0 (buffers state.now entries.now)) to.new.text.now to.new.at }
    ensures same_text { to.new.text.ghost_name ≡ to.old.text.ghost_name }
{
    if let Ok(sum) = totals::ledger_sum::ledger_sum(state, entries, ledger) {
        crate::lines::put_ledger_line(to, ledger, sum);
    }
}

// Place after place, until one is refused; behind a full list that is the place after the last.
pub fn put_ledgers(state: &[u64], entries: &[u64], to: &mut Writer)
    requires log { IsLog (buffers state.now entries.now) }
    requires room { Room to.old.text.now to.old.at
        (ledger_lines (held (buffers state.now entries.now)).list (buffers state.now entries.now)) }
    ensures puts { Puts to.old.text.now to.old.at
        (ledger_lines (held (buffers state.now entries.now)).list (buffers state.now entries.now))
        to.new.text.now to.new.at }
    ensures same_text { to.new.text.ghost_name ≡ to.old.text.ghost_name }
{
    for place in 1..=PLACE_LIMIT + 1 {
        let Ok(ledger) = readers::ledger_at::ledger_at(state, entries, ListPlace(place)) else {
            return;
        };
        put_ledger(state, entries, ledger, to);
    }
}
