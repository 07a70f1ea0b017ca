// The bodies that the program readback reads, and the line that each gives. Document 01, "The program readback".
// Kept: `out` and `at` travel together, as in report: memory is fixed, a line is written behind those that wait in the buffer, and the promise
// speaks of the whole buffer.
#![tactic(auto)]

ghost use Rattle.std.specs.Prelude.{◌≡◌, []};
ghost use Rattle.error.specs.Answer.{class_of, reason_of};
ghost use Rattle.octets.specs.Bytes.{Laid};
ghost use Rattle.report.specs.Line.{body_line};
ghost use Rattle.body.specs.Body.{names_a_tree, decoded_line, root_body_line, answered_line, page_body_line};

use error::Error;
use page::Page;
use root::Root;

// Slot u64, blocks u64 and the block.
pub const ROOT_BODY_BYTES: usize = 4112;

// Block u64, generation u64, UUID, tree kind, parent generation u64, expected level, blocks u64 and the page.
pub const PAGE_BODY_BYTES: usize = 4146;

// Whether the body of a page names a tree; the program stops at one that doesn't.
pub fn names_a_tree(body: &[u8]) -> bool
    ensures { result ≡ names_a_tree body.now }
{
    (1..=4).contains(&octets::byte_at(body, 32))
}

// The line of a refusal.
fn refusal(out: &mut [u8], at: usize, number: u64, e: Error) -> usize
    ensures { Laid out.old at (body_line number (class_of e) (reason_of e) []) out.new result }
{
    report::refused_line(out, at, number, error::class_of(e), error::reason_of(e))
}

// The line of a root's answer.
fn decoded_line(out: &mut [u8], at: usize, number: u64, decoded: Result<Root, Error>) -> usize
    ensures { Laid out.old at (decoded_line number decoded) out.new result }
{
    match decoded {
        Ok(root) => {
            let label = root
                .label
                .as_ref()
                .map_or(&[][..], |label| &label.bytes[..usize::from(label.len)]);
            report::root_line(out, at, number, 0, 0, root.generation, label)
        }
        Err(e) => refusal(out, at, number, e),
    }
}

// Lays the line of a root's body into `out`.
#[tactic(auto, unfolding(crate::specs::Body::root_body_line))]
pub fn root_body_line(out: &mut [u8], at: usize, number: u64, body: &[u8]) -> usize
    ensures { Laid out.old at (root_body_line number body.now) out.new result }
{
    let block = octets::tail(body, 16);
    let decoded = Root::decode(block, octets::u64_at(body, 0), octets::u64_at(body, 8));
    decoded_line(out, at, number, decoded)
}

// The line of a page's answer.
fn answered_line(out: &mut [u8], at: usize, number: u64, answer: Result<Page, Error>) -> usize
    ensures { Laid out.old at (answered_line number answer) out.new result }
{
    match answer {
        Ok(p) => report::page_line(
            out,
            at,
            number,
            0,
            0,
            p.level,
            p.data_blocks,
            p.count as u64,
        ),
        Err(e) => refusal(out, at, number, e),
    }
}

// Lays the line of a page's body into `out`.
#[tactic(auto, unfolding(crate::specs::Body::page_body_line))]
pub fn page_body_line(out: &mut [u8], at: usize, number: u64, body: &[u8]) -> usize
    ensures { Laid out.old at (page_body_line number body.now) out.new result }
{
    let uuid = octets::padded::<16>(octets::tail(body, 16));
    let answer = page::page_answer(
        octets::tail(body, 50),
        volume::ref_at(body, 0),
        &uuid,
        volume::tree_kind_of(u64::from(octets::byte_at(body, 32))),
        octets::u64_at(body, 33),
        page::expected_of(octets::byte_at(body, 41)),
        octets::u64_at(body, 42),
    );
    answered_line(out, at, number, answer)
}
