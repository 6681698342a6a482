// The fixed phrases of a sentence, as a text that is read is compared with them: the name of each step and the reason of each refusal.
ghost use Rattle.std.specs.Prelude.{◌≡◌, ◌≤◌};
ghost use Rattle.sentences.specs.Phrases.{texts, step_names, reasons, step_name};

// In the order of the steps' numbers, from 0.
const NAMES: &[&[u8]] = &[
    b"name",
    b"become",
    b"abdicate",
    b"fetch",
    b"close last",
    b"finish",
    b"create",
    b"append",
    b"write",
    b"close own",
];

// In the order of the refusals' numbers, from 1.
const REASONS: &[&[u8]] = &[
    b"a buffer has the wrong length",
    b"a buffer is not well formed",
    b"the client number is not below the client count",
    b"the client is the named leader",
    b"the client leads already",
    b"the client is not the named leader",
    b"the client does not lead",
    b"the client is at another stage",
    b"the client remembers what cannot be",
    b"no ledger number is left",
    b"the value has more than fifty two bits",
    b"another leader has fenced the ledger",
    b"the log is full",
    b"the ledger has no entry",
    b"the ledger is not in the list",
    b"the output buffer is shorter than the reading",
    b"the client count is not one to sixteen",
    b"there are no scores or more than four thousand",
    b"a score is above three hundred and seventy two",
    b"the window length is zero or too large",
    b"the name of the mark is taken or all zero",
    b"thirty two marks are kept already",
    b"no mark of this name is kept",
    b"the client lacks the right to this step",
    b"the step number is above nine",
    b"too many words or not eight bytes for each",
    b"the text buffer has fewer than ninety six bytes",
    b"there is no sentence for these numbers",
];

// The table of names, behind a function so that the proofs of its users need not read each phrase.
#[tactic(auto, unfolding(crate::specs::Phrases::step_names))]
pub fn names() -> &'static [&'static [u8]]
    ensures { texts result.now ≡ step_names }
{
    NAMES
}

// The table of reasons, in the order of the refusals from 1. Each table has its function, whose contract is a definition of its own.
#[tactic(auto, unfolding(crate::specs::Phrases::reasons))]
pub fn reasons() -> &'static [&'static [u8]]
    ensures { texts result.now ≡ reasons }
{
    REASONS
}

pub fn name(step: usize) -> &'static [u8]
    requires { step ≤ 9 }
    ensures { result.now ≡ step_name step }
{
    names()[step]
}
