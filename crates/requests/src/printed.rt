// What is printed of an input: the text of its session, or one line that says why there is none.
ghost use Rattle.std.specs.Prelude.{◌≡◌, ◌≤◌, ℕ, List, length};
ghost use Rattle.text.specs.Lent.{lent_answer, lent_text};
ghost use Rattle.text.specs.Puts.{Puts, Room};
ghost use Rattle.chain.specs.Operations.{buffers, fresh_buffers};
ghost use Rattle.chain.specs.Rights.{all_rights};
ghost use Rattle.requests.specs.Lines.{Line, lines};
ghost use Rattle.requests.specs.Opening.{session_capacity, opening, printed};
ghost use Rattle.requests.specs.Starts.{Begun, error_line};

use crate::start::{Beginning, CAPACITY, StartError, start_of};
use records::layout::STATE_LENGTH;
use text::lent::TextTooShort;
use text::writer::Writer;

// The text of a session: its transcript or its run total.
pub trait SessionText {
    // Of a client count and the lines after the first.
    ghost session_text: { ℕ → List Line → List ℕ };

    // Of a session on a fresh log, in which each client has all its rights.
    fn put(
        beginning: Beginning,
        state: &mut [u64],
        entries: &mut [u64],
        rights: &[u64],
        to: &mut Writer,
    )
        requires begun { Begun beginning.clients beginning.lines.rest.now }
        requires fresh { buffers state.old entries.old ≡ fresh_buffers session_capacity beginning.clients }
        requires all { rights.now ≡ all_rights beginning.clients }
        requires room { Room to.old.text.now to.old.at (session_text beginning.clients (lines beginning.lines.rest.now)) }
        ensures puts { Puts to.old.text.now to.old.at
            (session_text beginning.entry.clients (lines beginning.entry.lines.rest.now)) to.new.text.now to.new.at }
        ensures same_text { to.new.text.ghost_name ≡ to.old.text.ghost_name };
}

// A session has a log of its own.
fn put_session<T: SessionText>(beginning: Beginning, to: &mut Writer)
    requires begun { Begun beginning.clients beginning.lines.rest.now }
    requires room { Room to.old.text.now to.old.at (T.session_text beginning.clients (lines beginning.lines.rest.now)) }
    ensures puts { Puts to.old.text.now to.old.at
        (T.session_text beginning.entry.clients (lines beginning.entry.lines.rest.now)) to.new.text.now to.new.at }
    ensures same_text { to.new.text.ghost_name ≡ to.old.text.ghost_name }
{
    let mut state = [0u64; STATE_LENGTH];
    let mut entries = [0u64; CAPACITY];
    fresh::fresh(&mut state, &mut entries, beginning.clients);
    let rights = rights::all::all_for(beginning.clients);
    T::put(beginning, &mut state, &mut entries, &rights, to);
}

fn put_error(why: StartError, to: &mut Writer)
    requires { Room to.old.text.now to.old.at (error_line why) }
    ensures puts { Puts to.old.text.now to.old.at (error_line why) to.new.text.now to.new.at }
    ensures same_text { to.new.text.ghost_name ≡ to.old.text.ghost_name }
{
    to.put_phrase(why.words().as_bytes());
    to.put_byte(crate::LINE_END);
}

fn put_all<T: SessionText>(input: &[u8], to: &mut Writer)
    requires { Room to.old.text.now to.old.at (printed T.session_text (opening input.now)) }
    ensures puts { Puts to.old.text.now to.old.at (printed T.session_text (opening input.now)) to.new.text.now to.new.at }
    ensures same_text { to.new.text.ghost_name ≡ to.old.text.ghost_name }
{
    match start_of(input) {
        Ok(beginning) => put_session::<T>(beginning, to),
        Err(why) => put_error(why, to),
    }
}

// From the first byte of a text on, and where it ends. A text of fewer than `LIMIT` bytes, which are enough, is refused before anything is
// written.
pub fn put_printed<const LIMIT: usize, T: SessionText>(
    input: &[u8],
    text: &mut [u8],
) -> Result<usize, TextTooShort>
    requires { length (printed T.session_text (opening input.now)) ≤ LIMIT }
    ensures answer { result ≡ lent_answer LIMIT (printed T.session_text (opening input.now)) text.old }
    ensures text { text.new ≡ lent_text LIMIT (printed T.session_text (opening input.now)) text.old }
{
    if text.len() < LIMIT {
        return Err(TextTooShort);
    }
    let mut to = Writer { text, at: 0 };
    put_all::<T>(input, &mut to);
    Ok(to.at)
}
