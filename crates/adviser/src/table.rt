// The advice for a client, by value: whether it is named, its record, and whether the ledger that it remembers is stored as fenced.
ghost use Rattle.std.specs.Prelude.{◌≡◌};
ghost use Rattle.chain.specs.Adviser.{stage_advice, client_advice};

use chain::kind::Kind;
use records::client::Client;
use records::stage::Stage;

// A match and no table by the stage's number: the compiler asks for a kind of each stage, and one stage has two.
fn stage_advice(stage: Stage, fenced: bool) -> Kind
    ensures { result ≡ stage_advice stage fenced }
{
    match stage {
        Stage::Waiting => Kind::Become,
        Stage::Fetching => Kind::Fetch,
        Stage::ClosingLast => Kind::CloseLast,
        Stage::Creating => Kind::Create,
        Stage::Appending => Kind::Append,
        Stage::Writing => { if fenced { Kind::CloseOwn } else { Kind::Write } }
        Stage::Finishing => Kind::Finish,
    }
}

pub fn client_advice(named: bool, client: Client, fenced: bool) -> Option<Kind>
    ensures { result ≡ client_advice named client fenced }
{
    if named {
        return Some(stage_advice(client.stage, fenced));
    }
    client.leads.then_some(Kind::Abdicate)
}
