// The phrases of a sentence, written.
//
// Each is written by a call of its own, and not from the tables of `phrase`: the compiler knows its bytes, and stores them at once. From a table
// `put_phrase` copies any number of bytes, by a call of `memmove`, which the archive for C would need from outside, and a sentence takes longer.
ghost use Rattle.std.specs.Prelude.{◌≡◌, ◌≤◌};
ghost use Rattle.text.specs.Puts.{Puts, Room};
ghost use Rattle.sentences.specs.Phrases.{step_name, reason};

use text::writer::Writer;

pub fn put_name(to: &mut Writer, step: u64)
    requires room { Room to.old.text.now to.old.at (step_name step) }
    ensures puts { Puts to.old.text.now to.old.at (step_name step) to.new.text.now to.new.at }
    ensures same_text { to.new.text.ghost_name ≡ to.old.text.ghost_name }
{
    match step {
        0 => to.put_phrase(b"name"),
        1 => to.put_phrase(b"become"),
        2 => to.put_phrase(b"abdicate"),
        3 => to.put_phrase(b"fetch"),
        4 => to.put_phrase(b"close last"),
        5 => to.put_phrase(b"finish"),
        6 => to.put_phrase(b"create"),
        7 => to.put_phrase(b"append"),
        8 => to.put_phrase(b"write"),
        9 => to.put_phrase(b"close own"),
        _ => {},
    }
}

fn put_from_21(to: &mut Writer, refusal: u64)
    requires above { 21 ≤ refusal }
    requires room { Room to.old.text.now to.old.at (reason refusal) }
    ensures puts { Puts to.old.text.now to.old.at (reason refusal) to.new.text.now to.new.at }
    ensures same_text { to.new.text.ghost_name ≡ to.old.text.ghost_name }
{
    match refusal {
        21 => to.put_phrase(b"the name of the mark is taken or all zero"),
        22 => to.put_phrase(b"thirty two marks are kept already"),
        23 => to.put_phrase(b"no mark of this name is kept"),
        24 => to.put_phrase(b"the client lacks the right to this step"),
        25 => to.put_phrase(b"the step number is above nine"),
        26 => to.put_phrase(b"too many words or not eight bytes for each"),
        27 => to.put_phrase(b"the text buffer has fewer than ninety six bytes"),
        28 => to.put_phrase(b"there is no sentence for these numbers"),
        _ => {},
    }
}

fn put_from_11(to: &mut Writer, refusal: u64)
    requires above { 11 ≤ refusal }
    requires room { Room to.old.text.now to.old.at (reason refusal) }
    ensures puts { Puts to.old.text.now to.old.at (reason refusal) to.new.text.now to.new.at }
    ensures same_text { to.new.text.ghost_name ≡ to.old.text.ghost_name }
{
    match refusal {
        11 => to.put_phrase(b"the value has more than fifty two bits"),
        12 => to.put_phrase(b"another leader has fenced the ledger"),
        13 => to.put_phrase(b"the log is full"),
        14 => to.put_phrase(b"the ledger has no entry"),
        15 => to.put_phrase(b"the ledger is not in the list"),
        16 => to.put_phrase(b"the output buffer is shorter than the reading"),
        17 => to.put_phrase(b"the client count is not one to sixteen"),
        18 => to.put_phrase(b"there are no scores or more than four thousand"),
        19 => to.put_phrase(b"a score is above three hundred and seventy two"),
        20 => to.put_phrase(b"the window length is zero or too large"),
        _ => put_from_21(to, refusal),
    }
}

pub fn put_reason(to: &mut Writer, refusal: u64)
    requires some { 1 ≤ refusal }
    requires room { Room to.old.text.now to.old.at (reason refusal) }
    ensures puts { Puts to.old.text.now to.old.at (reason refusal) to.new.text.now to.new.at }
    ensures same_text { to.new.text.ghost_name ≡ to.old.text.ghost_name }
{
    match refusal {
        1 => to.put_phrase(b"a buffer has the wrong length"),
        2 => to.put_phrase(b"a buffer is not well formed"),
        3 => to.put_phrase(b"the client number is not below the client count"),
        4 => to.put_phrase(b"the client is the named leader"),
        5 => to.put_phrase(b"the client leads already"),
        6 => to.put_phrase(b"the client is not the named leader"),
        7 => to.put_phrase(b"the client does not lead"),
        8 => to.put_phrase(b"the client is at another stage"),
        9 => to.put_phrase(b"the client remembers what cannot be"),
        10 => to.put_phrase(b"no ledger number is left"),
        _ => put_from_11(to, refusal),
    }
}
