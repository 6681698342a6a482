// Reads a session's input, and writes its product.
#![tactic(auto)]

ghost use Rattle.std.specs.Prelude.{◌≡◌, ◌≢◌, ℕ, ◌^◌, ◌<◌, ◌≤◌, IfErr, IfOk, OnOk, List, length, take};
ghost use Rattle.std.specs.Fn.{FnOnceReturnsAtMut};
ghost use Rattle.std.specs.IoError.{error_kind};
ghost use Rattle.std.specs.Io.KnownBytes.{Appends, Consumes, IsAtEnd};
ghost use Rattle.console.specs.Products.{PutsWhole, WritesProduct, product_text};

use limits::{INPUT_LIMIT, RUN_TOTAL_LIMIT, TRANSCRIPT_LIMIT};
use std::io;
use std::io::{ErrorKind, Read, Write};
use text::lent::TextTooShort;

// What is printed: the transcript of the session, or its run total.
#[derive(Clone, Copy, Debug, PartialEq, Eq)]
pub enum Product {
    Transcript,
    Total,
}

// Reads until the buffer is full or the input ends, and again where a signal interrupts it. A counted range and no `loop`: signals may
// interrupt without end, so that a `loop` would need a Wait bound on `run`, and no function of the repository has one.
fn read_input<R: Read>(reader: &mut R, input: &mut [u8]) -> io::Result<usize>
    ensures bound { IfOk result (λ n. n ≤ length input.new) }
    ensures bytes { IfOk result (λ n. Consumes (R.remaining reader.old) (R.remaining reader.new) (take n input.new)) }
    ensures end { IfOk result (λ n. n < length input.new → IsAtEnd (R.remaining reader.new)) }
    ensures retried { IfErr result (λ e. error_kind e ≢ ErrorKind.Interrupted) }
{
    let mut n = 0;
    for _ in 0..u64::MAX {
        if n >= input.len() {
            return Ok(n);
        }
        match reader.read(&mut input[n..]) {
            Ok(0) => return Ok(n),
            Ok(count) => n += count,
            Err(e) => {
                if e.kind() != ErrorKind::Interrupted {
                    return Err(e);
                }
            }
        }
    }
    Err(ErrorKind::TimedOut.into())
}

// Writes what is put into a text of N bytes, which are enough for it.
fn print<const N: usize, W: Write, F>(writer: &mut W, put: F) -> io::Result<()>
where
    F: FnOnce(&mut [u8]) -> Result<usize, TextTooShort>,
    requires small { N < 2 ^ 63 }
    requires callable { F.IsAlwaysCallable put }
    requires fits { (whole : List ℕ) × (length whole ≤ N) × PutsWhole (FnOnceReturnsAtMut F.FnOnce put) N whole }
    ensures { (whole : List ℕ) → PutsWhole (FnOnceReturnsAtMut F.FnOnce put) N whole
        → OnOk result (Appends (W.contents writer.old) (W.contents writer.new) whole) }
{
    let mut text = [0u8; N];
    match put(&mut text) {
        Ok(n) => writer.write_all(&text[..n]),
        Err(_) => unreachable!(),
    }
}

// A switch, and no closure that `run` takes: the clause of `run` names the product, and says what is written of an input of any length.
fn print_product<W: Write>(writer: &mut W, product: Product, input: &[u8]) -> io::Result<()>
    ensures { OnOk result (Appends (W.contents writer.old) (W.contents writer.new) (product_text product input.now)) }
{
    match product {
        Product::Transcript => print::<TRANSCRIPT_LIMIT, _, _>(
            writer,
            |text| session::transcript(input, text),
        ),
        Product::Total => print::<RUN_TOTAL_LIMIT, _, _>(
            writer,
            |text| total::run_total(input, text),
        ),
    }
}

// A byte more than the limit is read, so that a longer input is known to be too long. No byte after it is.
pub fn run<R: Read, W: Write>(reader: &mut R, writer: &mut W, product: Product) -> io::Result<()>
    ensures { OnOk result (WritesProduct product (R.remaining reader.old) (W.contents writer.old) (W.contents writer.new)) }
{
    let mut input = [0u8; INPUT_LIMIT + 1];
    let n = read_input(reader, &mut input)?;
    print_product(writer, product, &input[..n])
}
