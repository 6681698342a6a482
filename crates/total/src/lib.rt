// The run total of a session: from the bytes of its input to the bytes that are printed.
#![tactic(auto)]

// A log is passed on as its two buffers and no struct of them: `requests::line::take`, `readers::ledger_at`, `totals::ledger_sum` and
// `totals::run_total` take the two slices, as C passes them.

mod ledgers;
mod lines;
pub mod start;

ghost use Rattle.std.specs.Prelude.{◌≡◌};
ghost use Rattle.total.specs.Output.{output_answer, output_text};

use crate::start::Output;
use limits::RUN_TOTAL_LIMIT;
use text::lent::TextTooShort;

// Nothing is written before it is known that every output fits.
pub fn run_total(input: &[u8], text: &mut [u8]) -> Result<usize, TextTooShort>
    ensures answer { result ≡ output_answer input.now text.old }
    ensures text { text.new ≡ output_text input.now text.old }
{
    requests::printed::put_printed::<RUN_TOTAL_LIMIT, Output>(input, text)
}
