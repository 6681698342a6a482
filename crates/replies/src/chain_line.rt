// The last line: the chain, with client and value of each entry.
ghost use Rattle.std.specs.Prelude.{◌≡◌};
ghost use Rattle.text.specs.Puts.{Puts, Room};
ghost use Rattle.replies.specs.Replies.{entry_text, entries_text, chain_line};

use records::entry::CLIENT_UNIT;
use text::writer::Writer;

// The fields by hand and not by `Entry::of_word`: `entry_text` takes all above the value for the client, and `of_word` four bits. The two
// are the same only of a word without a ledger, as those of the chain reading are, and `put_chain_line` is passed any words.
fn put_entry(to: &mut Writer, word: u64)
    requires { Room to.old.text.now to.old.at (entry_text word) }
    ensures puts { Puts to.old.text.now to.old.at (entry_text word) to.new.text.now to.new.at }
    ensures same_text { to.new.text.ghost_name ≡ to.old.text.ghost_name }
{
    let (client, value) = (word / CLIENT_UNIT, word % CLIENT_UNIT);
    to.put_byte(b' ');
    to.put_decimal(client);
    to.put_byte(b':');
    to.put_decimal(value);
}

fn put_entries(to: &mut Writer, words: &[u64])
    requires { Room to.old.text.now to.old.at (entries_text words.now) }
    ensures puts { Puts to.old.text.now to.old.at (entries_text words.now) to.new.text.now to.new.at }
    ensures same_text { to.new.text.ghost_name ≡ to.old.text.ghost_name }
{
    for &word in words {
        put_entry(to, word);
    }
}

pub fn put_chain_line(to: &mut Writer, words: &[u64])
    requires { Room to.old.text.now to.old.at (chain_line words.now) }
    ensures puts { Puts to.old.text.now to.old.at (chain_line words.now) to.new.text.now to.new.at }
    ensures same_text { to.new.text.ghost_name ≡ to.old.text.ghost_name }
{
    to.put_phrase(b"chain");
    put_entries(to, words);
    to.put_byte(b'\n');
}
