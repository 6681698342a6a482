// The transcript of a session: the replies to its lines and its chain.
use requests::printed::SessionText;
use requests::start::{Beginning, CAPACITY};
use text::writer::Writer;

// No value of it is made: it names the text for `put_printed`.
pub struct Transcript;

impl SessionText for Transcript {
    ghost use Rattle.session.specs.Transcript.{session_text};

    ghost session_text = { session_text };

    fn put(
        beginning: Beginning,
        state: &mut [u64],
        entries: &mut [u64],
        rights: &[u64],
        to: &mut Writer,
    ) {
        let mut reading = [0u64; CAPACITY];
        crate::replies_to::put_replies(beginning.lines, state, entries, rights, to);
        crate::chain_end::put_chain(state, entries, &mut reading, to);
    }
}
