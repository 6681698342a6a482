// The run total: the sum of the chain reading's values, exact and rounded once.
ghost use Rattle.std.specs.Prelude.{◌≡◌};
ghost use Rattle.chain.specs.Operations.{buffers};
ghost use Rattle.totals.specs.Totals.{run_total};

use crate::answer::RunTotal;
use chain::answer::Refusal;
use readers::log::Log;

// The thousandths of a one.
const THOUSAND: u64 = 1000;

pub fn run_total(state: &[u64], entries: &[u64]) -> Result<RunTotal, Refusal>
    ensures { result ≡ run_total (buffers state.now entries.now) }
{
    let log = Log::checked(state, entries)?;
    let exact = crate::exact::sum_along(log);
    let rest = amounts::rounding::rounded(exact.parts);
    Ok(RunTotal {
        ones: exact.ones,
        parts: exact.parts,
        rounded: exact.ones * THOUSAND + rest,
    })
}
