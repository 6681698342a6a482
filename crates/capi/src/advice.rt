// The adviser.
ghost use Rattle.std.specs.Prelude.{◌≡◌};
ghost use Rattle.chain.specs.Adviser.{adviser};
ghost use Rattle.chain.specs.Answers.{advice_number};
ghost use Rattle.chain.specs.Operations.{buffers};

pub fn cindrolf_advise(state: &[u64], entries: &[u64], client: u64) -> u64
    ensures { result ≡ advice_number (adviser client (buffers state.now entries.now)) }
{
    let a = adviser::advise(state, entries, client);
    crate::number::advice_number(a)
}
