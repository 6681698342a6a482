// The reference's example session and limits. Each starts from a fresh log.
ghost use Rattle.std.specs.Prelude.{◌≤◌, length};

use crate::beside::{asked, begin, take, write};
use crate::say::say_line;
use crate::script::{self, play};
use chain::answer::Answer;
use chain::kind::Kind;
use comparison::Comparison;
use model::answer::Step;
use model::pack::WORDS;
use std::io;

pub fn session(rt: &impl Print, both: &mut Comparison) -> io::Result<()> {
    begin(both, 3);
    for n in 1..=15 {
        let answer = take(both, script::session_step(n));
        say_line(rt, n, answer)?;
    }
    Ok(())
}

// The same session up to its line 14, and then a write to the ledger that is fenced.
pub fn fence(rt: &impl Print, both: &mut Comparison) -> io::Result<()> {
    begin(both, 3);
    play(both, script::session_step, 1..=14);
    let answer = take(both, write(0, 8));
    say_line(rt, "write after the fence", answer)
}

// The least value that is too wide: from a client that does not lead, at another stage, with its ledger listed, and with its ledger fenced.
pub fn wide_value(rt: &impl Print, both: &mut Comparison) -> io::Result<()> {
    let wide = write(0, 1 << 52);
    begin(both, 3);
    let idle = take(both, wide);
    say_line(rt, "wide value, does not lead", idle)?;
    play(both, script::session_step, 1..=1);
    let early = take(both, wide);
    say_line(rt, "wide value, other stage", early)?;
    play(both, script::session_step, 2..=4);
    let listed = take(both, wide);
    say_line(rt, "wide value", listed)?;
    play(both, script::session_step, 5..=14);
    let fenced = take(both, wide);
    say_line(rt, "wide value, fenced", fenced)
}

// A ledger that its owner closes while it is empty. The next one takes the first entry.
pub fn empty_ledger(rt: &impl Print, both: &mut Comparison) -> io::Result<()> {
    list_a_ledger(both);
    let closed = take(both, asked(Step::CloseOwn, 0));
    say_line(rt, "close own, empty", closed)?;
    let created = take(both, asked(Step::Create, 0));
    say_line(rt, "create after it", created)?;
    take(both, asked(Step::Append, 0));
    let written = take(both, write(0, 7));
    say_line(rt, "write after it", written)
}

// The session without its first write: its first ledger is empty and fenced when its owner closes it.
pub fn empty_fenced_ledger(rt: &impl Print, both: &mut Comparison) -> io::Result<()> {
    begin(both, 3);
    play(both, script::session_step, 1..=4);
    play(both, script::session_step, 6..=9);
    let answer = take(both, asked(Step::CloseOwn, 0));
    say_line(rt, "close own, empty and fenced", answer)
}

// Three steps that a fresh log refuses.
pub fn on_a_fresh_log(rt: &impl Print, both: &mut Comparison) -> io::Result<()> {
    begin(both, 3);
    let again = take(both, asked(Step::Name, 0));
    say_line(rt, "name 0", again)?;
    let unnamed = take(both, asked(Step::Become, 1));
    say_line(rt, "become 1", unnamed)?;
    let idle = take(both, asked(Step::Abdicate, 0));
    say_line(rt, "abdicate 0", idle)
}

// Become on a state that lacks its last word. It takes the two buffers and no Comparison: of the two lent by one function, the prover's borrow
// checker does not cover a part of a field.
fn become_on_short(state: &mut [u64], entries: &mut [u64]) -> Answer
    requires { 526 ≤ length state.old }
{
    steps::take::take(
        &mut state[..WORDS - 1],
        entries,
        &[0; rights::LENGTH],
        0,
        Kind::Become,
    )
}

// No state of LedgerChaining is a word short, so the model takes no step here; the words are still its own.
pub fn short_state(rt: &impl Print, both: &mut Comparison) -> io::Result<()> {
    begin(both, 3);
    let answer = become_on_short(&mut both.state, &mut both.entries);
    say_line(rt, "short state", answer)?;
    both.compare_buffers();
    Ok(())
}

// The most clients that a log may have, one more, and none. LedgerChaining has no state for the last two: the words stay those of 16 clients.
pub fn client_counts(rt: &impl Print, both: &mut Comparison) -> io::Result<()> {
    let most = begin(both, 16);
    say_line(rt, "fresh 16", most)?;
    let more = fresh::fresh(&mut both.state, &mut both.entries, 17);
    say_line(rt, "fresh 17", more)?;
    let none = fresh::fresh(&mut both.state, &mut both.entries, 0);
    say_line(rt, "fresh 0", none)?;
    both.compare_buffers();
    Ok(())
}

// One client, whose ledger 1 is listed after the session's line 4.
pub fn list_a_ledger(both: &mut Comparison) {
    begin(both, 1);
    play(both, script::session_step, 1..=4);
}

// The last ledger number that there is, and one more. After ledger 1, each takes four steps.
pub fn last_ledger(rt: &impl Print, both: &mut Comparison) -> io::Result<()> {
    list_a_ledger(both);
    let last = play(both, script::ledger_step, 1..=1015);
    say_line(rt, "create at 255", last)?;
    let more = play(both, script::ledger_step, 1016..=1019);
    say_line(rt, "create at 256", more)
}

// The last entry that there is room for, and one more.
pub fn last_entry(rt: &impl Print, both: &mut Comparison) -> io::Result<()> {
    list_a_ledger(both);
    let last = play(both, script::entry_step, 1..=4096);
    say_line(rt, "last entry", last)?;
    let more = play(both, script::entry_step, 4097..=4097);
    say_line(rt, "one entry more", more)
}
