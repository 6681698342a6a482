// Writes of scores: the log takes the list, the model of LedgerChaining a write of the value that the reference gives for it.
use crate::beside::{all_rights, write};
use crate::say::say_line;
use chain::answer::Answer;
use comparison::Comparison;
use std::io;

fn write_scores(both: &mut Comparison, scores: &[u16]) -> Answer {
    let rights = all_rights(both);
    steps::write_scores::write_scores(&mut both.state, &mut both.entries, &rights, 0, scores)
}

fn accepted(
    rt: &impl Print,
    both: &mut Comparison,
    label: &str,
    scores: &[u16],
    value: u64,
) -> io::Result<()> {
    let answer = write_scores(both, scores);
    let _ = both.follow(write(0, value), answer);
    say_line(rt, label, answer)
}

// LedgerChaining knows no limit of scores, so the model takes no step here; the words are still its own.
fn refused(rt: &impl Print, both: &mut Comparison, label: &str, scores: &[u16]) -> io::Result<()> {
    let answer = write_scores(both, scores);
    say_line(rt, label, answer)?;
    both.compare_buffers();
    Ok(())
}

// Three single scores, the most scores with the largest sum, and then what is past each limit.
pub fn scores(rt: &impl Print, both: &mut Comparison) -> io::Result<()> {
    crate::examples::list_a_ledger(both);
    accepted(rt, both, "score 0", &[0], 1000000000000)?;
    accepted(rt, both, "score 40", &[40], 100000000000)?;
    accepted(rt, both, "score 372", &[372], 501)?;
    accepted(rt, both, "4000 scores", &[0; 4000], 4000000000000000)?;
    refused(rt, both, "4001 scores", &[0; 4001])?;
    refused(rt, both, "no scores", &[0; 0])?;
    refused(rt, both, "score 373", &[373])
}
