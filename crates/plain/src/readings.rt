// The chain of the log after an example.
ghost use Rattle.std.specs.Prelude.{◌≤◌, length};

use chain::answer::{Answer, Refusal};
use comparison::Comparison;
use model::variables::ENTRIES;
use records::entry::CLIENT_UNIT;
use std::io;

// The chain, read into an output of as many words as a log has: how many words it has, by the answer.
fn read_chain(both: &Comparison, words: &mut [u64; ENTRIES]) -> Result<u64, Refusal> {
    readers::read_chain::read_chain(&both.state, &both.entries, words)
}

// The words of such an answer.
fn first_words(words: &[u64; ENTRIES], count: u64) -> &[u64]
    ensures { length result.now ≤ 4096 }
{
    &words[..words.len().min(count as usize)]
}

fn say_words(rt: &impl Print, words: &[u64]) -> io::Result<()> {
    print!(rt; "chain")?;
    for word in words {
        print!(rt; " {}:{}", word / CLIENT_UNIT, word % CLIENT_UNIT)?;
    }
    println!(rt; "")
}

// The whole chain on one line, each word as ` client:value`, or the refusal.
pub fn chain_line(rt: &impl Print, both: &Comparison) -> io::Result<()> {
    let mut words = [0; ENTRIES];
    match read_chain(both, &mut words) {
        Ok(count) => say_words(rt, first_words(&words, count)),
        Err(r) => crate::say::say_line(rt, "chain", Answer::Refused(r)),
    }
}

fn sum_of_values(words: &[u64]) -> u64
    requires { length words.now ≤ 4096 }
{
    words.iter().map(|word| word % CLIENT_UNIT).sum()
}

// How many words the chain has and the sum of their values, or the refusal.
pub fn long_reading(rt: &impl Print, both: &Comparison) -> io::Result<()> {
    let mut words = [0; ENTRIES];
    match read_chain(both, &mut words) {
        Ok(count) => {
            println!(rt; "reading {count}")?;
            println!(rt; "sum {}", sum_of_values(first_words(&words, count)))
        }
        Err(r) => crate::say::say_line(rt, "reading", Answer::Refused(r)),
    }
}
