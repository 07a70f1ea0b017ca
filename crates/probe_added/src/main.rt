// Runs the calls that were added to the reader from outside: calls from standard input, a line for each on standard output. Where a call
// ends is shape's and its line is added's; turns reads and writes.
#![tactic(auto)]

use shape::Fault;
use std::env::{Env, FillError};
use turns::{Answers, Words};

// The calls of docs/PROBE-ADDED.md, and the memory in which a call's image is made.
#[derive(Drop)]
struct Calls {
    image: [u8; added::IMAGE_BYTES],
}

impl Answers for Calls {
    ghost use Rattle.shape.specs.Added.{added, added_front};
    ghost use Rattle.shape.proofs.Room.{calls_fit, added_fits};
    ghost use Rattle.shape.proofs.Steady.{calls_stand};
    ghost use Rattle.shape.proofs.Within.{calls_within};
    ghost use Rattle.added.specs.Line.{call_line};

    ghost front = { added_front };

    ghost text = { call_line };

    ghost steady = { calls_stand added };

    ghost within = { λ input n whole. (calls_within added input n whole).1 };

    ghost fits = { λ input. calls_fit added input added_fits };

    fn read(&self, input: &[u8]) -> Result<usize, Fault> {
        shape::read_added(input)
    }

    fn line(&mut self, out: &mut [u8], at: usize, place: u64, call: &[u8]) -> usize {
        added::call_line(out, at, place, call, &mut self.image)
    }
}

fn main(rt: HostRuntime) {
    // Argument 0 is the program's name.
    if !matches!(rt.arg(1, &mut []), Err(FillError::NotPresent)) {
        let _ = rt.eprintln("usage: probe_added < FILE  (calls on standard input)");
        return;
    }
    let words = Words {
        head: b"probe_added 1\n",
        reading: b"probe_added: reading standard input",
        writing: b"probe_added: writing standard output",
    };
    let mut calls = Calls {
        image: [0; added::IMAGE_BYTES],
    };
    let _ = turns::answer_calls(
        &mut rt.stdin(),
        &mut rt.stdout(),
        &mut rt.stderr(),
        &mut calls,
        words,
    );
}
