// The forecast: what a run would add, found by the runner on a copy, so that neither buffer changes.
ghost use Rattle.std.specs.Prelude.{◌≡◌, true, length};
ghost use Rattle.chain.specs.Operations.{buffers};
ghost use Rattle.dispatch.specs.Lent.{lent_test};
ghost use Rattle.plans.specs.Runs.{Counted, Foretells};

use crate::run::Run;
use dispatch::log_mut::LogMut;
use limits::LARGE_CAPACITY;
use records::layout::STATE_LENGTH;

#[derive(Clone, Copy, Debug, PartialEq, Eq)]
pub struct Forecast {
    pub entries: u64,
    pub ledgers: u64,
    pub refusals: u64,
}

// The run on other words, which are made the log's first. What is lent here is only read, so it is no LogMut yet.
fn run_copied(
    own_state: &mut [u64],
    own_entries: &mut [u64],
    state: &[u64],
    entries: &[u64],
    rights: &[u64],
    plan: &[u64],
) -> Run
    requires states { length own_state.old ≡ length state.now }
    requires capacity { length own_entries.old ≡ length entries.now }
    requires lent { lent_test rights.now (buffers state.now entries.now) ≡ true }
    ensures { Counted rights.now plan.now (buffers state.now entries.now) result }
{
    own_state.copy_from_slice(state);
    own_entries.copy_from_slice(entries);
    let mut log = LogMut {
        state: own_state,
        entries: own_entries,
        rights,
    };
    crate::run::take_words(&mut log, plan)
}

pub fn forecast_plan(
    state: &[u64],
    entries: &[u64],
    rights: &[u64],
    plan: &[u64],
    budget: u64,
) -> Forecast
    ensures { Foretells rights.now plan.now budget (buffers state.now entries.now) result }
{
    let end = crate::run::limit(plan, budget);
    match rights::verdict::lent_verdict(state, entries, rights) {
        Err(_) => Forecast {
            entries: 0,
            ledgers: 0,
            refusals: end as u64,
        },
        Ok(()) => {
            let mut own_state = [0u64; STATE_LENGTH];
            let mut own_entries = [0u64; LARGE_CAPACITY];
            let capacity = entries.len();
            let own = &mut own_entries[..capacity];
            let run = run_copied(&mut own_state, own, state, entries, rights, &plan[..end]);
            // Field by field, in this one place: a From<Run> would list the three in its body and again in its ghost member.
            Forecast {
                entries: run.entries,
                ledgers: run.ledgers,
                refusals: run.refusals,
            }
        }
    }
}
