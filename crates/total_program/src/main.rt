// The program of the run total: reads a session from standard input and prints its ledgers and their total.
#![tactic(auto)]

use console::Product;
use std::io;

fn main(rt: HostRuntime) -> io::Result<()> {
    console::run(&mut rt.reader(), &mut io::writer(&rt), Product::Total)
}
