// The sum of a ledger: of the words that read ledger returns.
ghost use Rattle.std.specs.Prelude.{◌≡◌};
ghost use Rattle.chain.specs.Operations.{buffers};
ghost use Rattle.totals.specs.Totals.{ledger_sum};

use crate::answer::LedgerSum;
use chain::answer::Refusal;
use records::numbers::LedgerNumber;

pub fn ledger_sum(
    state: &[u64],
    entries: &[u64],
    ledger: LedgerNumber,
) -> Result<LedgerSum, Refusal>
    ensures { result ≡ ledger_sum ledger.0 (buffers state.now entries.now) }
{
    let part = readers::read_ledger::part(state, entries, ledger)?;
    let sum = crate::sums::sum_of(part);
    Ok(LedgerSum {
        entries: part.len() as u64,
        sum,
    })
}
