// The lines of the output.
ghost use Rattle.std.specs.Prelude.{◌≡◌};
ghost use Rattle.text.specs.Puts.{Puts, Room};
ghost use Rattle.total.specs.Output.{ledger_line, total_line, rounded_line, total_lines};

use amounts::fixed::{put_exact, put_pointed, put_thousandths};
use records::numbers::LedgerNumber;
use text::writer::Writer;
use totals::answer::{LedgerSum, RunTotal};

pub fn put_ledger_line(to: &mut Writer, ledger: LedgerNumber, sum: LedgerSum)
    requires { Room to.old.text.now to.old.at (ledger_line ledger.0 sum.entries sum.sum) }
    ensures puts { Puts to.old.text.now to.old.at (ledger_line ledger.0 sum.entries sum.sum) to.new.text.now to.new.at }
    ensures same_text { to.new.text.ghost_name ≡ to.old.text.ghost_name }
{
    to.put_counted(b"ledger ", ledger.0);
    to.put_counted(b" entries ", sum.entries);
    to.put_phrase(b" sum ");
    put_exact(to, sum.sum);
    to.put_byte(b'\n');
}

fn put_total_line(to: &mut Writer, ones: u64, parts: u64)
    requires { Room to.old.text.now to.old.at (total_line ones parts) }
    ensures puts { Puts to.old.text.now to.old.at (total_line ones parts) to.new.text.now to.new.at }
    ensures same_text { to.new.text.ghost_name ≡ to.old.text.ghost_name }
{
    to.put_phrase(b"total ");
    put_pointed(to, ones, 12, parts);
    to.put_byte(b'\n');
}

fn put_rounded_line(to: &mut Writer, thousandths: u64)
    requires { Room to.old.text.now to.old.at (rounded_line thousandths) }
    ensures puts { Puts to.old.text.now to.old.at (rounded_line thousandths) to.new.text.now to.new.at }
    ensures same_text { to.new.text.ghost_name ≡ to.old.text.ghost_name }
{
    to.put_phrase(b"rounded ");
    put_thousandths(to, thousandths);
    to.put_byte(b'\n');
}

// The total, exact and rounded.
pub fn put_end(to: &mut Writer, t: RunTotal)
    requires { Room to.old.text.now to.old.at (total_lines t) }
    ensures puts { Puts to.old.text.now to.old.at (total_lines t) to.new.text.now to.new.at }
    ensures same_text { to.new.text.ghost_name ≡ to.old.text.ghost_name }
{
    put_total_line(to, t.ones, t.parts);
    put_rounded_line(to, t.rounded);
}
