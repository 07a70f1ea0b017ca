// A program that answers calls: they come from an input through a window, and a line for each goes to an output.
// Kept, as in stream: `input`, `output` and `errors` go one by one, and so do the window and the buffer of lines: a struct that held these
// lent ends would have to say in each function that it holds the same ones still.
#![tactic(auto)]

ghost use Rattle.std.specs.Prelude.{◌≡◌, ◌≤◌, ◌<◌, ◌-◌, ◌++◌, ℕ, List, length, Option, Ok, Err};
ghost use Rattle.octets.specs.Bytes.{Laid, part};
ghost use Rattle.shape.specs.Call.{Front};
ghost use Rattle.shape.specs.declared.Fault.TheVariants.{Short, Outside};
ghost use Rattle.report.specs.Line.{cut_line, end_line};
ghost use Rattle.turns.specs.Turns.{line_of, Answered};
ghost use Rattle.turns.specs.Inside.{unanswered, shown, Flushed, LastSent, LineTold, ReadOn, SentAndRead, Turned};

use shape::Fault;
use stand::Stand;
use std::io;

mod stand;

// The input comes through a window of so many bytes.
const WINDOW_BYTES: usize = 262_144;

// Lines wait for one another in a buffer of twice the most that a line takes.
const OUT_BYTES: usize = 65_536;

const LINE_BYTES: usize = 32_768;

// What a program makes of a call: where the one at the front of the input ends, and the line of one whose place and bytes are given, laid
// into a lent buffer; each by a definition that the program names, and of which three laws hold.
pub trait Answers {
    ghost front: { List ℕ → Front };

    ghost text: { ℕ → List ℕ → List ℕ };

    fn read(&self, input: &[u8]) -> Result<usize, Fault>
        ensures { result ≡ front input.now };

    fn line(&mut self, out: &mut [u8], at: usize, place: u64, call: &[u8]) -> usize
        ensures { Laid out.old at (text place call.now) out.new result };

    // What stands at the front of an input stands there whatever follows.
    ghost steady: { (input more : List ℕ) → (front input ≡ Err Short → ⊥) → front (input ++ more) ≡ front input };

    // A call ends within its input.
    ghost within: { (input : List ℕ) (n : ℕ) → front input ≡ Ok n → n ≤ length input };

    // A window has room for any call.
    ghost fits: { (input : List ℕ) → front input ≡ Err Short → length input < 262144 };
}

// A program's own words: its first line, and what its two ends are called where one fails.
#[derive(Clone, Copy)]
pub struct Words<'w> {
    pub head: &'w [u8],
    pub reading: &'w [u8],
    pub writing: &'w [u8],
}

// How a run ends.
#[derive(Clone, Copy)]
pub enum Ended {
    // The input was read to its end, or to what is no whole call, and all lines are written.
    Whole,
    // The input can't be read on; the lines of the calls before are written.
    Unread,
    // Bytes can't be written, or lines still wait.
    Unwritten,
}

// Sends lines that wait.
fn flush<O: io::Write, E: io::Write>(
    output: &mut O,
    errors: &mut E,
    lines: &[u8],
    writing: &[u8],
) -> Result<(), Ended>
    ensures { Flushed (O.contents output.old) (O.contents output.new) lines.now result }
{
    stream::send(output, errors, lines, writing).ok_or(Ended::Unwritten)
}

// Sends the last of the lines; no call follows.
fn last<O: io::Write, E: io::Write>(
    output: &mut O,
    errors: &mut E,
    lines: &[u8],
    writing: &[u8],
) -> Ended
    ensures { LastSent (O.contents output.old) (O.contents output.new) lines.now result }
{
    match flush(output, errors, lines, writing) {
        Ok(()) => Ended::Whole,
        Err(end) => end,
    }
}

// Lays the line of a call that isn't answered behind those that wait, and sends them.
fn cut<O: io::Write, E: io::Write>(
    output: &mut O,
    errors: &mut E,
    out: &mut [u8; OUT_BYTES],
    used: usize,
    place: u64,
    writing: &[u8],
) -> Ended
    requires { used ≤ 32768 }
    ensures { LastSent (shown (O.contents output.old) out.old used) (O.contents output.new) (cut_line place) result }
{
    let end = report::cut_line(out, used, place);
    last(output, errors, octets::span(out, 0, end), writing)
}

// Sends the line of the input's end, where none waits.
fn finish<O: io::Write, E: io::Write>(
    output: &mut O,
    errors: &mut E,
    out: &mut [u8; OUT_BYTES],
    place: u64,
    writing: &[u8],
) -> Ended
    ensures { LastSent (O.contents output.old) (O.contents output.new) (end_line place) result }
{
    let end = report::end_line(out, 0, place);
    last(output, errors, octets::span(out, 0, end), writing)
}

// Lays the line of a call behind those that wait, and makes room for the next.
fn tell<O: io::Write, E: io::Write, A: Answers>(
    output: &mut O,
    errors: &mut E,
    answers: &mut A,
    out: &mut [u8; OUT_BYTES],
    used: usize,
    place: u64,
    call: &[u8],
    writing: &[u8],
) -> Result<usize, Ended>
    requires { used ≤ 32768 }
    ensures { LineTold (shown (O.contents output.old) out.old used) (O.contents output.new) out.new (line_of A.text place call.now) result }
{
    let end = answers.line(&mut out[..used + LINE_BYTES], used, place, call);
    stream::room(output, errors, out, end, writing).ok_or(Ended::Unwritten)
}

// Brings what is read and not yet answered to the window's front, and reads on behind it.
fn read_on<R: io::Read>(
    input: &mut R,
    window: &mut [u8; WINDOW_BYTES],
    at: usize,
    have: usize,
) -> io::Result<Option<usize>>
    requires in_order { at ≤ have }
    requires in_window { have ≤ 262144 }
    ensures { ReadOn (R.remaining input.old) (R.remaining input.new) (part window.old at (have - at)) window.new result }
{
    window.copy_within(at..have, 0);
    stream::read_behind(input, window, have - at)
}

// Sends the lines that wait, and reads on behind what isn't answered; a read that fails is told.
fn read_more<R: io::Read, O: io::Write, E: io::Write>(
    input: &mut R,
    output: &mut O,
    errors: &mut E,
    words: Words,
    window: &mut [u8; WINDOW_BYTES],
    out: &[u8; OUT_BYTES],
    s: Stand,
) -> Result<Option<usize>, Ended>
    ensures { SentAndRead (R.remaining input.old) (R.remaining input.new) (part window.old s.at (s.have - s.at)) window.new (shown (O.contents output.old) out.now s.used) (O.contents output.new) result }
{
    flush(output, errors, octets::span(out, 0, s.used), words.writing)?;
    match read_on(input, window, s.at, s.have) {
        Ok(have) => Ok(have),
        Err(why) => {
            let _ = stream::fail(errors, words.reading, why);
            Err(Ended::Unread)
        }
    }
}

// Behind a call that isn't whole: reads on, or ends where nothing more comes.
fn refilled<R: io::Read, O: io::Write, E: io::Write, A: Answers>(
    input: &mut R,
    output: &mut O,
    errors: &mut E,
    words: Words,
    window: &mut [u8; WINDOW_BYTES],
    out: &mut [u8; OUT_BYTES],
    s: Stand,
) -> Result<Stand, Ended>
    requires { A.front (part window.old s.at (s.have - s.at)) ≡ Err Short }
    ensures { Turned A.front A.text s.place (unanswered window.old s.at s.have (R.remaining input.old)) (shown (O.contents output.old) out.old s.used) window.new (R.remaining input.new) out.new (O.contents output.new) result }
{
    if let Some(have) = read_more(input, output, errors, words, window, out, s)? {
        return Ok(Stand {
            place: s.place,
            at: 0,
            have,
            used: 0,
        });
    }
    if s.at < s.have {
        return Err(cut(output, errors, out, 0, s.place, words.writing));
    }
    Err(finish(output, errors, out, s.place, words.writing))
}

// Behind a whole call: its line.
fn answered<O: io::Write, E: io::Write, A: Answers>(
    output: &mut O,
    errors: &mut E,
    answers: &mut A,
    words: Words,
    window: &[u8; WINDOW_BYTES],
    out: &mut [u8; OUT_BYTES],
    s: Stand,
    length: usize,
) -> Result<Stand, Ended>
    requires { A.front (part window.now s.at (s.have - s.at)) ≡ Ok «length» }
    ensures { (left : Option (List ℕ)) → Turned A.front A.text s.place (unanswered window.now s.at s.have left) (shown (O.contents output.old) out.old s.used) window.now left out.new (O.contents output.new) result }
{
    let next = s.at.saturating_add(length).min(s.have);
    let call = &window[s.at..next];
    // A place is a number of 64 bits; no run comes to the last.
    let place = s.place.checked_add(1).ok_or(Ended::Unwritten)?;
    let used = tell(
        output,
        errors,
        answers,
        out,
        s.used,
        s.place,
        call,
        words.writing,
    )?;
    Ok(Stand {
        place,
        at: next,
        have: s.have,
        used,
    })
}

// One call, or a read where the next isn't whole.
fn step<R: io::Read, O: io::Write, E: io::Write, A: Answers>(
    input: &mut R,
    output: &mut O,
    errors: &mut E,
    answers: &mut A,
    words: Words,
    window: &mut [u8; WINDOW_BYTES],
    out: &mut [u8; OUT_BYTES],
    s: Stand,
) -> Result<Stand, Ended>
    ensures { Turned A.front A.text s.place (unanswered window.old s.at s.have (R.remaining input.old)) (shown (O.contents output.old) out.old s.used) window.new (R.remaining input.new) out.new (O.contents output.new) result }
{
    match answers.read(&window[s.at..s.have]) {
        Ok(length) => answered(output, errors, answers, words, window, out, s, length),
        Err(Fault::Outside) => Err(cut(output, errors, out, s.used, s.place, words.writing)),
        Err(Fault::Short) => {
            refilled::<R, O, E, A>(input, output, errors, words, window, out, s)
        }
    }
}

// Answers the calls of an input: the first line, a line for each call and the last line go to an output, and what fails is told on a third
// end. Nothing is promised where bytes can't be written, and where the input's or the output's aren't known, as of the system's.
pub fn answer_calls<R: io::Read, O: io::Write, E: io::Write, A: Answers>(
    input: &mut R,
    output: &mut O,
    errors: &mut E,
    answers: &mut A,
    words: Words,
) -> Ended
    ensures { Answered A.front A.text words.entry.head.now (R.remaining input.old) (O.contents output.old) (O.contents output.new) result }
{
    if let Err(end) = flush(output, errors, words.head, words.writing) {
        return end;
    }
    let mut window = [0; WINDOW_BYTES];
    let mut out = [0; OUT_BYTES];
    let mut stand = Stand {
        place: 0,
        at: 0,
        have: 0,
        used: 0,
    };
    // A proved loop has to end, and nothing says that the input does: no run comes to the last turn, behind which lines may wait.
    for _ in 0..u64::MAX {
        match step(
            input,
            output,
            errors,
            answers,
            words,
            &mut window,
            &mut out,
            stand,
        ) {
            Ok(next) => stand = next,
            Err(end) => return end,
        }
    }
    Ended::Unwritten
}
