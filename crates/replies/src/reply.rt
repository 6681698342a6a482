// A numbered line: what a step answered, or that the line was bad.
ghost use Rattle.std.specs.Prelude.{◌≡◌, ◌++◌};
ghost use Rattle.text.specs.Bytes.{bytes};
ghost use Rattle.text.specs.Decimal.{decimal};
ghost use Rattle.text.specs.Puts.{Puts, Room};
ghost use Rattle.chain.specs.Answers.{refusal_number};
ghost use Rattle.replies.specs.Replies.{position_text, answer_text, reply_text, reply_line};

use chain::answer::{Answer, Position, Refusal};
use text::writer::Writer;

fn put_position(to: &mut Writer, p: Position)
    requires { Room to.old.text.now to.old.at (position_text p) }
    ensures puts { Puts to.old.text.now to.old.at (position_text p) to.new.text.now to.new.at }
    ensures same_text { to.new.text.ghost_name ≡ to.old.text.ghost_name }
{
    to.put_counted(b"entry ", p.number.0);
    to.put_counted(b" place ", p.place.0);
}

fn put_refusal(to: &mut Writer, r: Refusal)
    requires { Room to.old.text.now to.old.at (bytes "ref " ++ decimal (refusal_number r)) }
    ensures puts { Puts to.old.text.now to.old.at (bytes "ref " ++ decimal (refusal_number r)) to.new.text.now to.new.at }
    ensures same_text { to.new.text.ghost_name ≡ to.old.text.ghost_name }
{
    to.put_counted(b"ref ", u64::from(r));
}

fn put_answer(to: &mut Writer, answer: Answer)
    requires { Room to.old.text.now to.old.at (answer_text answer) }
    ensures puts { Puts to.old.text.now to.old.at (answer_text answer) to.new.text.now to.new.at }
    ensures same_text { to.new.text.ghost_name ≡ to.old.text.ghost_name }
{
    match answer {
        Answer::Done => to.put_phrase(b"ok"),
        Answer::WasClosed => to.put_phrase(b"was"),
        Answer::Behind => to.put_phrase(b"behind"),
        Answer::Written(p) => put_position(to, p),
        Answer::Refused(r) => put_refusal(to, r),
    }
}

fn put_reply(to: &mut Writer, reply: Option<Answer>)
    requires { Room to.old.text.now to.old.at (reply_text reply) }
    ensures puts { Puts to.old.text.now to.old.at (reply_text reply) to.new.text.now to.new.at }
    ensures same_text { to.new.text.ghost_name ≡ to.old.text.ghost_name }
{
    match reply {
        Some(a) => put_answer(to, a),
        None => to.put_phrase(b"bad line"),
    }
}

pub fn put_reply_line(to: &mut Writer, number: u64, reply: Option<Answer>)
    requires { Room to.old.text.now to.old.at (reply_line number (reply_text reply)) }
    ensures puts { Puts to.old.text.now to.old.at (reply_line number (reply_text reply)) to.new.text.now to.new.at }
    ensures same_text { to.new.text.ghost_name ≡ to.old.text.ghost_name }
{
    to.put_decimal(number);
    to.put_byte(b' ');
    put_reply(to, reply);
    to.put_byte(b'\n');
}
