// The replies to the lines after the first, each numbered.
ghost use Rattle.std.specs.Prelude.{◌≡◌, ◌≤◌, length};
ghost use Rattle.limits.specs.Limits.{input_limit};
ghost use Rattle.text.specs.Puts.{Room};
ghost use Rattle.chain.specs.Operations.{buffers};
ghost use Rattle.requests.specs.Lines.{lines};
ghost use Rattle.session.specs.Transcript.{session};
ghost use Rattle.session.specs.Owed.{Ran};

use requests::input::Lines;
use text::writer::Writer;

pub fn put_replies(
    left: Lines,
    state: &mut [u64],
    entries: &mut [u64],
    rights: &[u64],
    to: &mut Writer,
)
    requires small { length left.rest.now ≤ input_limit }
    requires room { Room to.old.text.now to.old.at
        (session rights.now 1 (lines left.rest.now) (buffers state.old entries.old)) }
    ensures ran { Ran rights.now (lines left.entry.rest.now)
        (buffers state.old entries.old) to.old.text.now to.old.at
        (buffers state.new entries.new) to.new.text.now to.new.at }
    ensures same_text { to.new.text.ghost_name ≡ to.old.text.ghost_name }
{
    for (number, line) in (1..).zip(left) {
        let reply = requests::line::take(line, state, entries, rights);
        replies::reply::put_reply_line(to, number, reply);
    }
}
