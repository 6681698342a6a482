// Plans: run up to a budget, and what such a run would add.
ghost use Rattle.chain.specs.Operations.{buffers};
ghost use Rattle.plans.specs.Runs.{RunResult};
ghost use Rattle.capi.specs.Calls.{ForecastCall};

use capi::plan::PlanCounts;

#[unsafe(no_mangle)]
pub extern "C" fn cindrolf_run_plan(
    state: &mut [u64],
    entries: &mut [u64],
    rights: &[u64],
    plan: &[u64],
    budget: u64,
) -> u64
    ensures { RunResult rights.now plan.now budget
        (buffers state.old entries.old) result state.new entries.new }
{
    capi::plan::cindrolf_run_plan(state, entries, rights, plan, budget)
}

#[unsafe(no_mangle)]
pub extern "C" fn cindrolf_forecast(
    state: &[u64],
    entries: &[u64],
    rights: &[u64],
    plan: &[u64],
    budget: u64,
) -> PlanCounts
    ensures { ForecastCall rights.now plan.now budget
        (buffers state.now entries.now) result.entries result.ledgers result.refusals }
{
    capi::plan::cindrolf_forecast(state, entries, rights, plan, budget)
}
