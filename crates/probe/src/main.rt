// Runs every public call of the reader from outside: calls from standard input, a line for each on standard output. Where a call ends
// is shape's and its line is lines'; turns reads and writes.
#![tactic(auto)]

use shape::Fault;
use std::env::{Env, FillError};
use turns::{Answers, Words};

// The calls of docs/PROBE.md.
#[derive(Drop)]
struct Calls;

impl Answers for Calls {
    ghost use Rattle.shape.specs.Calls.{calls, call_front};
    ghost use Rattle.shape.proofs.Room.{calls_fit, probe_fits};
    ghost use Rattle.shape.proofs.Steady.{calls_stand};
    ghost use Rattle.shape.proofs.Within.{calls_within};
    ghost use Rattle.lines.specs.Line.{call_line};

    ghost front = { call_front };

    ghost text = { call_line };

    ghost steady = { calls_stand calls };

    ghost within = { λ input n whole. (calls_within calls input n whole).1 };

    ghost fits = { λ input. calls_fit calls input probe_fits };

    fn read(&self, input: &[u8]) -> Result<usize, Fault> {
        shape::read_call(input)
    }

    fn line(&mut self, out: &mut [u8], at: usize, place: u64, call: &[u8]) -> usize {
        lines::call_line(out, at, place, call)
    }
}

fn main(rt: HostRuntime) {
    // Argument 0 is the program's name.
    if !matches!(rt.arg(1, &mut []), Err(FillError::NotPresent)) {
        let _ = rt.eprintln("usage: probe < FILE  (calls on standard input)");
        return;
    }
    let words = Words {
        head: b"probe 1\n",
        reading: b"probe: reading standard input",
        writing: b"probe: writing standard output",
    };
    let _ = turns::answer_calls(
        &mut rt.stdin(),
        &mut rt.stdout(),
        &mut rt.stderr(),
        &mut Calls,
        words,
    );
}
