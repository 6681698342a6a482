// A ledger between its fence and its close: the answers to its owner, its closer and another client, and what finish refuses.
use crate::beside::{all_rights, asked, begin, take, write};
use crate::say::say_line;
use crate::script::{self, play};
use chain::answer::Answer;
use chain::kind::Kind;
use comparison::Comparison;
use model::answer::Step;
use std::io;

// The session up to its line 9: client 1 has fenced ledger 1 and not closed it.
fn fenced(both: &mut Comparison) {
    begin(both, 3);
    play(both, script::session_step, 1..=9);
}

// Its owner cannot write and is behind. Client 2 fetches it; client 1 then finishes, and client 2 is behind.
pub fn recovery(rt: &impl Print, both: &mut Comparison) -> io::Result<()> {
    fenced(both);
    let written = take(both, write(0, 8));
    say_line(rt, "write while recovering", written)?;
    let own = take(both, asked(Step::CloseOwn, 0));
    say_line(rt, "close own while recovering", own)?;
    take(both, asked(Step::Name, 2));
    take(both, asked(Step::Become, 2));
    take(both, asked(Step::Fetch, 2));
    let finished = take(both, asked(Step::Finish, 1));
    say_line(rt, "finish", finished)?;
    let found = take(both, asked(Step::CloseLast, 2));
    say_line(rt, "close last, finished meanwhile", found)?;
    let late = take(both, asked(Step::Finish, 2));
    say_line(rt, "finish, finished already", late)?;
    let created = take(both, asked(Step::Create, 1));
    say_line(rt, "create after finish", created)
}

// Finish of client 1. Its word and the word of ledger 1 are set first.
fn finish_with(both: &mut Comparison, client: u64, ledger: u64) -> Answer {
    both.state[2] = client;
    both.state[17] = ledger;
    let rights = all_rights(both);
    steps::take::take(&mut both.state, &mut both.entries, &rights, 1, Kind::Finish)
}

// Memories that no history leads to, and a ledger closed with version 2 that is not fenced. LedgerChaining has no state for any of them.
pub fn impossible_memory(rt: &impl Print, both: &mut Comparison) -> io::Result<()> {
    fenced(both);
    let nothing = finish_with(both, 0xE008020000000000, 0x00E0000000000000);
    say_line(rt, "finish, no ledger", nothing)?;
    let closed = finish_with(both, 0xE008080200000000, 0x00E0000000000000);
    say_line(rt, "finish, remembered as closed", closed)?;
    let lower = finish_with(both, 0xE008080300000000, 0x8000000000000000);
    say_line(rt, "finish, stored version lower", lower)?;
    let equal = finish_with(both, 0xE008080300000000, 0x00C0000000000000);
    say_line(rt, "finish, stored as closed", equal)?;
    let higher = finish_with(both, 0xE008080300000000, 0x0100000000000000);
    say_line(rt, "finish, closed without a fence", higher)
}
