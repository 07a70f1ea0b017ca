// Reading and writing that can fail. A read that fails is neither bytes nor the end of the input, and a write that fails stops a program.
// Nobody here handles a signal, so none interrupts a call.
#![tactic(auto)]

ghost use Rattle.std.specs.Prelude.{◌≡◌, length, OnOk};
ghost use Rattle.stream.specs.Stream.{read_of, ReadBehind, FilledBy, Says, Sent, StartsAt, MadeRoom};

use std::io;
use std::io::{Read as _, Write as _};

// What the system's answer to a read behind the first `have` of `size` bytes means.
#[tactic(auto, unfolding(crate::specs::Stream::read_of))]
fn read_of(got: io::Result<usize>, have: usize, size: usize) -> io::Result<Option<usize>>
    ensures { result ≡ read_of size have got }
{
    if size <= have {
        return Ok(None);
    }
    let came = got?;
    if came == 0 {
        return Ok(None);
    }
    Ok(Some(have + came.min(size - have)))
}

// Reads once behind the first `have` bytes, and answers how many the buffer has then; None where none came, since the input has ended
// or there is no room.
#[tactic(auto, using(crate::proofs::Answers::behind))]
pub fn read_behind<R: io::Read>(
    input: &mut R,
    buf: &mut [u8],
    have: usize,
) -> io::Result<Option<usize>>
    ensures { ReadBehind (R.remaining input.old) (R.remaining input.new) buf.old have buf.new result }
{
    let size = buf.len();
    if size <= have {
        return Ok(None);
    }
    read_of(input.read(&mut buf[have..]), have, size)
}

// Reads until the buffer is full, the input ends or a read fails, and answers how many bytes came.
#[tactic(auto, using(crate::proofs::Took::took_more))]
pub fn fill<R: io::Read>(input: &mut R, buf: &mut [u8]) -> io::Result<usize>
    ensures { FilledBy (R.remaining input.old) (R.remaining input.new) buf.old buf.new result }
{
    let mut have = 0;
    while let Some(more) = read_behind(input, buf, have)? {
        have = more;
    }
    Ok(have)
}

// What the library says of an error without the number that it puts behind the system's words.
fn words(told: &[u8]) -> &[u8] {
    let Ok(text) = std::str::from_utf8(told) else {
        return told;
    };
    text.split_once(" (os error ")
        .map_or(told, |(words, _)| words.as_bytes())
}

// Says what failed, as the caller names it, and why, in a line of its own.
#[tactic(auto, using(crate::proofs::Said::said))]
pub fn fail<E: io::Write>(errors: &mut E, what: &[u8], why: io::Error) -> io::Result<()>
    ensures { OnOk result (Says (E.contents errors.old) (E.contents errors.new) what.now) }
{
    let mut told = io::Cursor::new([0u8; 128]);
    let _ = write!(told, "{why}");
    let used = told.position() as usize;
    let told = told.into_inner();
    errors.write_all(what)?;
    errors.write_all(b": ")?;
    errors.write_all(words(octets::span(&told, 0, used)))?;
    errors.write_all(b"\n")
}

// Writes bytes to standard output. None where not all were taken, which is said on standard error: what failed, as the caller names it,
// and why. To send nothing can't fail.
// Kept: `output`, `errors` and `what` go one by one: a program sends in one place and asks for room in another, and would say
// `stream::Ends { output: &mut rt.stdout(), errors: &mut rt.stderr(), what: WRITING }.send(lines)` in each.
pub fn send<O: io::Write, E: io::Write>(
    output: &mut O,
    errors: &mut E,
    out: &[u8],
    what: &[u8],
) -> Option<()>
    ensures { Sent (O.contents output.old) (O.contents output.new) out.now result }
{
    if out.is_empty() {
        return Some(());
    }
    if let Err(why) = output.write_all(out) {
        let _ = fail(errors, what, why);
        return None;
    }
    Some(())
}

// Where the next line starts in a buffer of lines, of which half is kept free, since a line takes less: beyond it what is there is
// sent. None where that failed.
// Kept: `out` and `used`, not the bytes that wait: the answer is a place in that buffer, by the buffer's length.
pub fn room<O: io::Write, E: io::Write>(
    output: &mut O,
    errors: &mut E,
    out: &[u8],
    used: usize,
    what: &[u8],
) -> Option<usize>
    ensures starts { StartsAt (length out.now) used result }
    ensures sends { MadeRoom (O.contents output.old) (O.contents output.new) out.now used result }
{
    if used <= out.len() / 2 {
        return Some(used);
    }
    send(output, errors, octets::span(out, 0, used), what)?;
    Some(0)
}
