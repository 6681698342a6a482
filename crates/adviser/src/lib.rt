// The adviser: the next step of one client, from both buffers, which are only read.
// `advise` takes `state` and `entries` as two parameters: they may be no log, and are refused with 1 and 2. An `OpenedLog` has both once they passed.
#![tactic(auto)]

pub mod table;

ghost use Rattle.std.specs.Prelude.{◌≡◌};
ghost use Rattle.chain.specs.Adviser.{advice, adviser};
ghost use Rattle.chain.specs.Operations.{buffers, held};

use chain::answer::Refusal;
use chain::kind::Kind;
use lookup::opened::OpenedLog;

// What a client that the log knows is told.
fn advise_known(log: &OpenedLog) -> Option<Kind>
    ensures { result ≡ advice log.now.client (held (buffers log.now.state.now log.now.entries.now)) }
{
    let h = log.head();
    let (k, stored) = log.remembered();
    let named = h.named_leader == log.client;
    table::client_advice(named, k, stored.ledger.fenced)
}

// The kind of the step to take next, a write's value being the caller's; or that there is none to take.
pub fn advise(state: &[u64], entries: &[u64], client: u64) -> Result<Option<Kind>, Refusal>
    ensures { result ≡ adviser client (buffers state.now entries.now) }
{
    wellformed::log_verdict(state, entries)?;
    if lookup::client::is_unknown(state, client) {
        return Err(Refusal::UnknownClient);
    }
    let log = OpenedLog::new(state, entries, client);
    Ok(advise_known(&log))
}
