// Plans: run up to a budget, and what such a run would add.
ghost use Rattle.chain.specs.Operations.{buffers};
ghost use Rattle.plans.specs.Runs.{RunResult};
ghost use Rattle.capi.specs.Calls.{ForecastCall};

use plans::forecast::Forecast;

// The counts of a forecast, in the layout that C reads; that is said in this crate alone.
#[repr(C)]
#[derive(Clone, Copy, Debug, PartialEq, Eq)]
pub struct PlanCounts {
    pub entries: u64,
    pub ledgers: u64,
    pub refusals: u64,
}

impl From<Forecast> for PlanCounts {
    ghost use Rattle.std.specs.Prelude.{◌≡◌};

    ghost from_gives = { λ forecast counts. (counts.entries ≡ forecast.entries)
        × ((counts.ledgers ≡ forecast.ledgers) × (counts.refusals ≡ forecast.refusals)) };

    fn from(forecast: Forecast) -> PlanCounts {
        PlanCounts {
            entries: forecast.entries,
            ledgers: forecast.ledgers,
            refusals: forecast.refusals,
        }
    }
}

pub fn cindrolf_run_plan(
    state: &mut [u64],
    entries: &mut [u64],
    rights: &[u64],
    plan: &[u64],
    budget: u64,
) -> u64
    ensures { RunResult rights.now plan.now budget
        (buffers state.old entries.old) result state.new entries.new }
{
    plans::run::run_plan(state, entries, rights, plan, budget)
}

pub fn cindrolf_forecast(
    state: &[u64],
    entries: &[u64],
    rights: &[u64],
    plan: &[u64],
    budget: u64,
) -> PlanCounts
    ensures { ForecastCall rights.now plan.now budget
        (buffers state.now entries.now) result.entries result.ledgers result.refusals }
{
    let forecast = plans::forecast::forecast_plan(state, entries, rights, plan, budget);
    PlanCounts::from(forecast)
}
