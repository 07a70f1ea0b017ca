// The line of a call of probe_added, from the call's bytes on, laid into a lent buffer.
// Kept: `out` and `at` travel together, as in report, which lays the texts.
#![tactic(auto)]

ghost use Rattle.std.specs.Prelude.{◌≡◌, ◌/◌, length};
ghost use Rattle.octets.specs.Bytes.{Laid};
ghost use Rattle.root.specs.declared.Root.{Root};
ghost use Rattle.search.specs.Words.{search_words};
ghost use Rattle.report.specs.Text.{number_fields};
ghost use Rattle.calls.specs.Given.{number_in};
ghost use Rattle.added.specs.Image.{laid_page, laid_pages, image_of};
ghost use Rattle.added.specs.Line.{strings_in, root_behind, search_asked, searched_told, call_told, call_line};

use root::Root;
use search::{Searched, Searches};

// An image has at most 640 blocks.
pub const IMAGE_BYTES: usize = 2_621_440;

// A page of an image, as a call has it: the number of its block, and its bytes.
const PAGE_BYTES: usize = 4_104;

// Lays a page at its block's place; what falls beyond the image's end is left out.
#[tactic(auto, using(crate::proofs::Laying::page_beyond))]
fn lay_page(image: &mut [u8], page: &[u8])
    ensures { image.new ≡ laid_page image.old page.now }
{
    let block = octets::u64_at(page, 0);
    if image.len() as u64 / 4096 < block {
        return;
    }
    octets::put(
        image,
        block as usize * 4096,
        octets::span(page, 8, PAGE_BYTES),
    );
}

// Each of them, one after the other.
#[tactic(auto, using(crate::proofs::Laying::pages_none))]
fn lay_pages(image: &mut [u8], pages: &[u8])
    ensures { image.new ≡ laid_pages image.old pages.now (length pages.now / 4104) }
{
    for i in 0..pages.len() / PAGE_BYTES {
        let start = i * PAGE_BYTES;
        lay_page(image, octets::span(pages, start, start + PAGE_BYTES));
    }
}

// An image of its length: zeros, and the pages.
#[tactic(auto, unfolding(crate::specs::Image::image_of))]
fn make_image(image: &mut [u8], pages: &[u8])
    ensures { image.new ≡ image_of (length image.old) pages.now }
{
    image.fill(0);
    lay_pages(image, pages);
}

// Number i of a call.
fn number(input: &[u8], i: u8) -> u64
    ensures { result ≡ number_in input.now i }
{
    octets::u64_at(input, 1 + 8 * usize::from(i))
}

// Where a call's strings start.
fn strings(input: &[u8]) -> &[u8]
    ensures { result.now ≡ strings_in input.now }
{
    octets::tail(input, shape::added_strings_at(octets::byte_at(input, 0)))
}

// The root whose numbers stand behind number i, UUID and label first of the strings. Number i stands where one of call 41 says whether it is
// present.
fn root_behind(input: &[u8], i: u8) -> Root
    ensures { result ≡ root_behind input.now i }
{
    let named = strings(input);
    calls::choice::given_root(
        octets::tail(input, 1 + 8 * usize::from(i)),
        lines::string(named),
        lines::string(lines::behind_string(named)),
    )
}

// Call 60, in an image of the length that is lent.
#[tactic(auto, unfolding(crate::specs::Line::search_asked))]
fn searched(input: &[u8], image: &mut [u8]) -> Searched
    ensures { result ≡ search_asked input.now (length image.old) }
{
    let keyed = lines::behind_string(lines::behind_string(strings(input)));
    make_image(image, lines::string(lines::behind_string(keyed)));
    search::search(
        image,
        root_behind(input, 1),
        volume::tree_kind_of(number(input, 1)),
        lines::string(keyed),
        Searches {
            count: number(input, 0),
        },
    )
}

// Its fields; nothing where the length is above an image's, which no call within the limits has.
#[tactic(auto, unfolding(crate::specs::Line::searched_told))]
fn searched_fields(input: &[u8], image: &mut [u8; IMAGE_BYTES], out: &mut [u8], at: usize) -> usize
    ensures { Laid out.old at (searched_told input.now) out.new result }
{
    let Some(lent) = image.get_mut(..number(input, 18) as usize) else {
        return at;
    };
    report::number_fields(out, at, &search::words::search_words(searched(input, lent)))
}

// A call's fields, by its number.
#[tactic(auto, unfolding(crate::specs::Line::call_told))]
fn told(input: &[u8], image: &mut [u8; IMAGE_BYTES], out: &mut [u8], at: usize) -> usize
    ensures { Laid out.old at (call_told input.now) out.new result }
{
    match octets::byte_at(input, 0) {
        60 => searched_fields(input, image, out, at),
        _ => at,
    }
}

// The line of a call whose place is given. What is lent for an image is left as the call has made it.
#[tactic(auto, using(report::proofs::Pieces::pieces), unfolding(crate::specs::Line::call_line))]
pub fn call_line(
    out: &mut [u8],
    at: usize,
    place: u64,
    input: &[u8],
    image: &mut [u8; IMAGE_BYTES],
) -> usize
    ensures { Laid out.old at (call_line place input.now) out.new result }
{
    let placed = report::decimal(out, at, place);
    let answered = told(input, image, out, placed);
    report::put_byte(out, answered, b'\n')
}
