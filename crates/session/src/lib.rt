// The session program's transcript, from the bytes of its input to the bytes that it prints.
#![tactic(auto)]

// A log is passed on as its two buffers and no struct of them: `requests::line::take` and `readers::read_chain` take the two slices, as C
// passes them.

pub mod chain_end;
pub mod replies_to;
pub mod start;

ghost use Rattle.std.specs.Prelude.{◌≡◌};
ghost use Rattle.session.specs.Transcript.{transcript_answer, transcript_text};

use crate::start::Transcript;
use limits::TRANSCRIPT_LIMIT;
use text::lent::TextTooShort;

// Nothing is written before it is known that every transcript fits.
pub fn transcript(input: &[u8], text: &mut [u8]) -> Result<usize, TextTooShort>
    ensures answer { result ≡ transcript_answer input.now text.old }
    ensures text { text.new ≡ transcript_text input.now text.old }
{
    requests::printed::put_printed::<TRANSCRIPT_LIMIT, Transcript>(input, text)
}
