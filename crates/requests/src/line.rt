// A line after the first: it is read as a request, and its step is taken.
ghost use Rattle.std.specs.Prelude.{◌≡◌};
ghost use Rattle.chain.specs.Operations.{buffers};
ghost use Rattle.requests.specs.Views.{line_of};
ghost use Rattle.requests.specs.Requests.{request_of, Answers};

use crate::input::Line;
use chain::answer::Answer;
use dispatch::Step;

#[tactic(auto, unfolding(crate::specs::Requests::request_of))]
fn request_of(line: Line) -> Option<Step>
    ensures { result ≡ request_of (line_of line.entry) }
{
    match line {
        Line::Ended(content) => grammar::parse_line(content),
        Line::Unended(_) => None,
    }
}

fn answer_request(
    state: &mut [u64],
    entries: &mut [u64],
    rights: &[u64],
    request: Option<Step>,
) -> Option<Answer>
    ensures { Answers rights.now request (buffers state.old entries.old) result
        state.new entries.new }
{
    let step = request?;
    Some(dispatch::check_and_take(state, entries, rights, step))
}

// Takes a line under the rights that are passed. The reply is the answer of its step, or none where it took no step.
pub fn take(line: Line, state: &mut [u64], entries: &mut [u64], rights: &[u64]) -> Option<Answer>
    ensures { Answers rights.now (request_of (line_of line.entry))
        (buffers state.old entries.old) result
        state.new entries.new }
{
    answer_request(state, entries, rights, request_of(line))
}
