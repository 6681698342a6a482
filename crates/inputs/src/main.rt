// Prints the transcript and the run total of each file that its arguments name, under a line with the name.
#![tactic(auto)]

use console::Product;
use std::env::{Env, FillError};
use std::rt::Files;
use std::{fs, io, str};

// As long as any path. The program uses no heap, so std writes an argument into a buffer of its caller.
const NAME_LENGTH: usize = 4096;

fn print_heading(rt: &impl Print, name: &[u8]) -> io::Result<()> {
    rt.write_all(b"== ")?;
    rt.write_all(name)?;
    rt.write_all(b"\n")
}

fn run_file(rt: &(impl Files + Print), name: &[u8], product: Product) -> io::Result<()> {
    let path = str::from_utf8(name).map_err(|_| io::ErrorKind::InvalidInput)?;
    console::run(&mut fs::open(rt, path)?, &mut io::writer(rt), product)
}

fn run_argument(rt: &(impl Files + Print), name: &[u8]) -> io::Result<()> {
    print_heading(rt, name)?;
    run_file(rt, name, Product::Transcript)?;
    rt.write_all(b"-- total\n")?;
    run_file(rt, name, Product::Total)
}

// Whether there is an argument of this number. Standard error says what failed.
fn try_argument(rt: &(impl Env + Eprint + Files + Print), i: usize) -> io::Result<bool> {
    let mut name = [0u8; NAME_LENGTH];
    match rt.arg(i, &mut name) {
        Err(FillError::NotPresent) => return Ok(false),
        Err(FillError::TooLong) => {
            eprintln!(rt; "argument {i}: longer than a path")?;
            rt.write_all(b"not run\n")?;
        }
        Ok(n) => {
            if let Err(why) = run_argument(rt, &name[..n]) {
                eprintln!(rt; "argument {i}: {why}")?;
                rt.write_all(b"not run\n")?;
            }
        }
    }
    Ok(true)
}

// A file that did not run leaves a line that no product prints. A range and no `loop`: the range is what ends it where no
// argument does. A `loop` that nothing ends would need a Wait bound on `main`, and no function of the repository has one.
fn main(rt: HostRuntime) -> io::Result<()> {
    for i in 1..usize::MAX {
        if !try_argument(&rt, i)? {
            break;
        }
    }
    Ok(())
}
