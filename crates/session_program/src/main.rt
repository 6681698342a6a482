// The session program: reads a session from standard input and prints its transcript.
#![tactic(auto)]

use console::Product;
use std::io;

fn main(rt: HostRuntime) -> io::Result<()> {
    console::run(&mut rt.reader(), &mut io::writer(&rt), Product::Transcript)
}
