// The printing program (document 01, "Printing program"): `printing::print` decides all; this reads and writes.
#![tactic(auto)]

ghost use Rattle.std.specs.Prelude.{◌≤◌, length};

use printing::{MOST_INPUT, MOST_TEXT};
use std::io::{Read, Stdin};

// Reads until the buffer is full, the input ends or a read fails; the answer is how many bytes there are.
fn read_full(from: &mut Stdin, buffer: &mut [u8]) -> usize
    ensures { result ≤ length buffer.new }
{
    let mut done = 0;
    while done < buffer.len() {
        match from.read(&mut buffer[done..]) {
            Ok(0) | Err(_) => break,
            Ok(n) => done += n,
        }
    }
    done
}

fn main(rt: HostRuntime) {
    // one byte more than an input may have, so that a longer one is known
    let mut input = [0u8; MOST_INPUT + 1];
    let n = read_full(&mut rt.stdin(), &mut input);
    let mut text = [0u8; MOST_TEXT];
    match printing::print(&input[..n], &mut text) {
        Ok(m) => {
            if rt.write_all(&text[..m]).is_err() {
                // where this cannot be said either, nothing is left to do
                let _ = eprintln!(rt; "print: the answer could not be written");
            }
        }
        Err(_) => {}
    }
}
