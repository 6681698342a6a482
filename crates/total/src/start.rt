// The run total of a session: its listed ledgers, their total and the rounded total.
ghost use Rattle.std.specs.Prelude.{◌≡◌};
ghost use Rattle.text.specs.Puts.{Puts, Room};
ghost use Rattle.chain.specs.Operations.{buffers, after_steps, IsLog};
ghost use Rattle.totals.specs.Totals.{run_total};
ghost use Rattle.requests.specs.Lines.{lines};
ghost use Rattle.requests.specs.Requests.{taken};
ghost use Rattle.total.specs.Output.{end_of, log_text};

use requests::input::Lines;
use requests::printed::SessionText;
use requests::start::Beginning;
use text::writer::Writer;

// Takes the step of each line that is left.
fn run_lines(left: Lines, state: &mut [u64], entries: &mut [u64], rights: &[u64])
    ensures { buffers state.new entries.new ≡ after_steps
        (taken rights.now (lines left.entry.rest.now))
        (buffers state.old entries.old) }
{
    for line in left {
        requests::line::take(line, state, entries, rights);
    }
}

// A refused total is no line, as `end_of` says; that of a session's log is never refused (`SumsHistory.total`).
fn put_total(state: &[u64], entries: &[u64], to: &mut Writer)
    requires { Room to.old.text.now to.old.at (end_of (run_total (buffers state.now entries.now))) }
    ensures puts { Puts to.old.text.now to.old.at
        (end_of (run_total (buffers state.now entries.now))) to.new.text.now to.new.at }
    ensures same_text { to.new.text.ghost_name ≡ to.old.text.ghost_name }
{
    if let Ok(total) = totals::run_total::run_total(state, entries) {
        crate::lines::put_end(to, total);
    }
}

fn put_log(state: &[u64], entries: &[u64], to: &mut Writer)
    requires log { IsLog (buffers state.now entries.now) }
    requires room { Room to.old.text.now to.old.at (log_text (buffers state.now entries.now)) }
    ensures puts { Puts to.old.text.now to.old.at (log_text (buffers state.now entries.now)) to.new.text.now to.new.at }
    ensures same_text { to.new.text.ghost_name ≡ to.old.text.ghost_name }
{
    crate::ledgers::put_ledgers(state, entries, to);
    put_total(state, entries, to);
}

// No value of it is made: it names the text for `put_printed`.
pub struct Output;

impl SessionText for Output {
    ghost use Rattle.total.specs.Output.{session_total};

    ghost session_text = { session_total };

    fn put(
        beginning: Beginning,
        state: &mut [u64],
        entries: &mut [u64],
        rights: &[u64],
        to: &mut Writer,
    ) {
        run_lines(beginning.lines, state, entries, rights);
        put_log(state, entries, to);
    }
}
