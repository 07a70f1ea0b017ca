// Reads roots and pages from standard input and says of each what the reader answers. Document 01, "The program readback".
#![tactic(auto)]

use std::env::{Env, FillError};
use std::io;

// What the two ends of the program are called where one fails.
const READING: &[u8] = b"readback: reading standard input";

const WRITING: &[u8] = b"readback: writing standard output";

// Why a body has no line.
#[derive(Drop)]
enum Stop {
    // It is short, or its kind or its tree's kind is unknown.
    Cut,
    // None follows.
    End,
    // A read failed.
    Failed(io::Error),
}

impl From<io::Error> for Stop {
    fn from(why: io::Error) -> Stop {
        Stop::Failed(why)
    }
}

// The bytes of a body behind its kind.
fn whole<const N: usize>(input: &mut io::Stdin) -> Result<[u8; N], Stop> {
    let mut body = [0u8; N];
    if stream::fill(input, &mut body)? < N {
        return Err(Stop::Cut);
    }
    Ok(body)
}

// What the program reads from and writes to, and the lines that wait.
#[derive(Drop)]
struct Run {
    rt: HostRuntime,
    input: io::Stdin,
    out: [u8; 65_536],
}

impl Run {
    fn root_turn(&mut self, at: usize, number: u64) -> Result<usize, Stop> {
        let body: [u8; body::ROOT_BODY_BYTES] = whole(&mut self.input)?;
        Ok(body::root_body_line(&mut self.out, at, number, &body))
    }

    fn page_turn(&mut self, at: usize, number: u64) -> Result<usize, Stop> {
        let body: [u8; body::PAGE_BODY_BYTES] = whole(&mut self.input)?;
        if !body::names_a_tree(&body) {
            return Err(Stop::Cut);
        }
        Ok(body::page_body_line(&mut self.out, at, number, &body))
    }

    // The place behind the line of the next body.
    fn body_turn(&mut self, at: usize, number: u64) -> Result<usize, Stop> {
        let mut kind = [0u8; 1];
        if stream::fill(&mut self.input, &mut kind)? < kind.len() {
            return Err(Stop::End);
        }
        // Kept: the kind is a byte of the input, asked for here alone: an enum of kinds would be made by a match like this one.
        match kind {
            [1] => self.root_turn(at, number),
            [2] => self.page_turn(at, number),
            _ => Err(Stop::Cut),
        }
    }

    // Sends the lines that wait, up to a place; none follows.
    // Kept, as in turns: each has its own struct and messages: a function of both would take what `stream::send` takes.
    fn last(&self, end: usize) -> Option<usize> {
        let lines = octets::span(&self.out, 0, end);
        stream::send(&mut self.rt.stdout(), &mut self.rt.stderr(), lines, WRITING)?;
        None
    }

    // Where the next line starts behind a body's, or None behind the last one; where a read failed there is none.
    fn turn(&mut self, at: usize, number: u64) -> Option<usize> {
        match self.body_turn(at, number) {
            Ok(place) => stream::room(
                &mut self.rt.stdout(),
                &mut self.rt.stderr(),
                &self.out,
                place,
                WRITING,
            ),
            Err(Stop::Cut) => {
                let end = report::cut_line(&mut self.out, at, number);
                self.last(end)
            }
            Err(Stop::End) => {
                let end = report::end_line(&mut self.out, at, number);
                self.last(end)
            }
            Err(Stop::Failed(why)) => {
                let _ = stream::fail(&mut self.rt.stderr(), READING, why);
                self.last(at)
            }
        }
    }
}

fn main(rt: HostRuntime) {
    // Argument 0 is the program's name.
    if !matches!(rt.arg(1, &mut []), Err(FillError::NotPresent)) {
        let _ = rt.eprintln(
            "usage: readback < FILE  (bodies on standard input; tools/readback FILE.. reads files)",
        );
        return;
    }
    let mut run = Run {
        input: rt.stdin(),
        rt,
        out: [0; 65_536],
    };
    let used = report::head_line(&mut run.out, 0);
    // A proved loop has to end, and nothing says that the input does: no run comes to the last number.
    let _ = (0..u64::MAX).try_fold(used, |at, number| run.turn(at, number));
}
