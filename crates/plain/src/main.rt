// Runs the reference's example session and limits on the log and on a model of LedgerChaining, and prints the answer of each, one to a line.
#![tactic(auto)]

mod beside;
mod examples;
mod readings;
mod recovery;
mod say;
mod score_writes;
mod script;

use comparison::Comparison;
use std::io;

fn main(rt: HostRuntime) -> io::Result<()> {
    let mut both = Comparison::new();
    examples::session(&rt, &mut both)?;
    readings::chain_line(&rt, &both)?;
    examples::fence(&rt, &mut both)?;
    examples::wide_value(&rt, &mut both)?;
    examples::empty_ledger(&rt, &mut both)?;
    readings::chain_line(&rt, &both)?;
    examples::empty_fenced_ledger(&rt, &mut both)?;
    recovery::recovery(&rt, &mut both)?;
    recovery::impossible_memory(&rt, &mut both)?;
    examples::on_a_fresh_log(&rt, &mut both)?;
    examples::short_state(&rt, &mut both)?;
    examples::client_counts(&rt, &mut both)?;
    examples::last_ledger(&rt, &mut both)?;
    examples::last_entry(&rt, &mut both)?;
    readings::long_reading(&rt, &both)?;
    score_writes::scores(&rt, &mut both)?;
    say::say_difference(&rt, &both)
}
