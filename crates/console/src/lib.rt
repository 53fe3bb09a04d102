// What the programs read and print with: a text from standard input, made into another, to standard output; the
// elements of a slice; the number of an answer.
// It sees `calls` and the standard streams.
// Proved: every function ends, and stays within its memory; of a reader whose bytes are known, the bytes that
// `read_all` counts are the next of them, in their order, and where there was room for more they are all; `read_text`
// counts bytes of its slice; a print through `IgnoringErrors` never answers that it failed.
// By inspection and test: that standard input is such a reader, that what is handed to standard output arrives, and the
// lines on standard error. The tests compare what the programs write with stored outputs.
#![tactic(auto)]

ghost use Rattle.std.specs.Prelude.{◌≡◌, ℕ, ◌<◌, ◌≤◌, IfOk, IsOk, length, take};
ghost use Rattle.std.specs.Io.KnownBytes.{Consumes, IsAtEnd};
ghost use Rattle.std.specs.Counts.{IsPrefixLen};

use calls::Refusal;
use std::convert::AsSlice;
use std::fmt::Display;
use std::io::{Print, Read};
use std::{fmt, io};

// The bytes of a reader to its end, or as many as the slice has room for: how many that is.
#[tactic(auto, using(crate::proofs::Reading::reading))]
fn read_all<R: Read>(input: &mut R, text: &mut [u8]) -> io::Result<usize>
    ensures within { IfOk result (λ n. n ≤ length text.new) }
    ensures bytes { IfOk result (λ n.
        Consumes (R.remaining input.old) (R.remaining input.new) (take n text.new)) }
    ensures end { IfOk result (λ n. n < length text.new → IsAtEnd (R.remaining input.new)) }
{
    let mut n = 0;
    while n < text.len() {
        let more = input.read(&mut text[n..])?;
        if more == 0 {
            return Ok(n);
        }
        n += more;
    }
    Ok(n)
}

// On standard error: the program's name, and what went wrong. A name is bytes, which need not be text, so that it isn't
// printed by `Display`.
fn complain(errors: &impl Print, program: &[u8], what: &[u8]) {
    let _ = errors.write_all(program);
    let _ = errors.write_all(what);
}

// The text to its end, or as much of it as the slice has room for, and how many bytes that is. A read that fails leaves
// no text.
pub fn read_text(rt: &HostRuntime, program: &[u8], text: &mut [u8]) -> usize
    ensures { IsPrefixLen result text.new }
{
    match read_all(&mut rt.stdin(), text) {
        Ok(n) => n,
        Err(_) => {
            complain(&rt.stderr(), program, b": standard input can't be read\n");
            0
        }
    }
}

// The whole outcome of a program.
pub fn write_text(rt: &HostRuntime, program: &[u8], bytes: &[u8]) {
    if rt.write_all(bytes).is_err() {
        complain(
            &rt.stderr(),
            program,
            b": standard output can't be written\n",
        );
    }
}

// Standard output for a program whose stored output shows what is missing: no write answers that it failed, so that
// what comes after it is written all the same.
#[derive(Drop)]
pub struct IgnoringErrors<'a, P>(pub &'a P);

impl<P: Print> Print for IgnoringErrors<'_, P> {
    fn print<D: Display + Drop>(&self, value: D) -> io::Result<()>
        ensures { IsOk result }
    {
        let _ = self.0.print(value);
        Ok(())
    }

    fn println<D: Display + Drop>(&self, value: D) -> io::Result<()>
        ensures { IsOk result }
    {
        let _ = self.0.println(value);
        Ok(())
    }

    fn write_all(&self, bytes: &[u8]) -> io::Result<()>
        ensures { IsOk result }
    {
        let _ = self.0.write_all(bytes);
        Ok(())
    }
}

// The elements of a slice, each after a space.
#[derive(Drop)]
pub struct Spaced<'a, T>(pub &'a [T]);

impl<T: Display> Display for Spaced<'_, T> {
    fn fmt<W: fmt::Write>(&self, f: &mut fmt::Formatter<W>) -> fmt::Result {
        for element in self.0 {
            write!(f, " {element}")?;
        }
        Ok(())
    }
}

// The number of the answer of the coder, the front or the read-out: 0 where it is done. A write that fails isn't said,
// since a program's stored output shows what is missing.
pub fn answer(rt: &impl Print, answer: Result<(), Refusal>) {
    let number = calls::number(answer);
    let _ = print!(rt; " answer {number}");
}

// A program that makes one text of another: the text from standard input, in the slice that is lent for it, and what
// the function writes of it at the start of the array to standard output. No clause speaks of what is read and written:
// that the function is handed the one, and the other handed on, is in the three lines.
pub fn filter<B, F>(rt: &HostRuntime, program: &[u8], text: &mut [u8], out: &mut B, write: F)
where
    B: AsSlice<u8>,
    F: FnOnce(&[u8], &mut B) -> usize,
    requires callable { F.IsAlwaysCallable write }
    requires within { (read lent : _) (n : ℕ) (left : _) → F.post write read lent n left
        → n ≤ length (B.items left.now) }
{
    let n = read_text(rt, program, text);
    let length = write(&text[..n], out);
    write_text(rt, program, &out.as_slice()[..length]);
}
