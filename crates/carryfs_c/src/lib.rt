// The C interface of the reader as a static library, libcarryfs.a: include/carryfs.h says what each function answers. A slice is a
// pointer and a length, a result a number. Answers of several numbers are written as words at the front of a lent array, or not at all
// where it has no room for them.
#![tactic(auto)]

ghost use Rattle.std.specs.Prelude.{◌≡◌, ◌&&◌, cond, ◌≤◌, ◌++◌, length, drop};
ghost use Rattle.crc.specs.Crc.{extend, crc32c};
ghost use Rattle.crc.specs.DataUnit.{data_unit_crc};
ghost use Rattle.error.specs.Answer.{number_words};
ghost use Rattle.group.specs.Group.{checksum_slot};
ghost use Rattle.group.specs.Slots.{slot_words};
ghost use Rattle.lookup.specs.Floor.{floor_answer, floor_words, scratch_of, next_record, step_words};
ghost use Rattle.root.specs.Root.{root_decode};
ghost use Rattle.root.specs.Select.{choose_root};
ghost use Rattle.root.specs.Words.{root_words, root_text, choice_words};
ghost use Rattle.carryfs.specs.Words.{room, status_of, asked_status, placed, group_words, is_uuid, slot_root, can_ask, asked_page};
ghost use Rattle.search.specs.Given.{can_search, asked_search};

use error::Validation;
use root::Root;
use search::Searches;
use volume::TreeRef;

// The checksum of `bytes`.
#[unsafe(no_mangle)]
pub extern "C" fn carryfs_crc32c(bytes: &[u8]) -> u32
    ensures { result ≡ crc32c bytes.now }
{
    crc::crc32c(bytes)
}

// The register after `bytes`, with no inversion at either end.
#[unsafe(no_mangle)]
pub extern "C" fn carryfs_extend(register: u32, bytes: &[u8]) -> u32
    ensures { result ≡ extend register bytes.now }
{
    crc::software_extend(register, bytes)
}

// Lays words or bytes at the front of a lent array that has room for them.
fn lay<T: Copy>(front: &[T], out: &mut [T])
    requires { length front.now ≤ length out.old }
    ensures { out.new ≡ front.now ++ drop (length front.now) out.old }
{
    out[..front.len()].copy_from_slice(front);
}

// Words at the front of a lent array, where it has room for them.
fn place(words: &[u64], out: &mut [u64]) -> u32
    ensures { (result ≡ status_of (room (length words.now) out.old)) × (out.new ≡ placed (room (length words.now) out.old) words.now out.old) }
{
    if out.len() < words.len() {
        return 1;
    }
    lay(words, out);
    0
}

// The word in a slot of a checksum group.
#[unsafe(no_mangle)]
pub extern "C" fn carryfs_slot(group: &[u8], slot: usize, out: &mut [u64]) -> u32
    ensures { (result ≡ status_of (room 4 out.old)) × (out.new ≡ placed (room 4 out.old) (slot_words (checksum_slot group.now slot)) out.old) }
{
    let words = carryfs::slot_words(group::checksum_slot(group, slot));
    place(&words, out)
}

// A checksum group's record, as it stands in a leaf of the catalog.
#[tactic(auto, unfolding(carryfs::specs::Words::group_words))]
#[unsafe(no_mangle)]
pub extern "C" fn carryfs_group(key: &[u8], value: &[u8], out: &mut [u64]) -> u32
    ensures { (result ≡ status_of (room 2 out.old)) × (out.new ≡ placed (room 2 out.old) (group_words key.now value.now) out.old) }
{
    let words = carryfs::check_words(group::validate_checksum_group(key, value, Validation::Disk));
    place(&words, out)
}

// The word of a unit of a file's data, from its valid bytes.
#[unsafe(no_mangle)]
pub extern "C" fn carryfs_data_unit(
    uuid: &[u8],
    object: u64,
    unit: u64,
    valid: &[u8],
    out: &mut [u64],
) -> u32
    ensures value { result ≡ asked_status (is_uuid (length uuid.now)) (room 3 out.old) }
    ensures out_after { out.new ≡ placed (is_uuid (length uuid.now) && room 3 out.old) (number_words (data_unit_crc uuid.now object unit valid.now)) out.old }
{
    let Ok(id) = <&[u8; 16]>::try_from(uuid) else {
        return 2;
    };
    let words = carryfs::number_words(crc::data_unit_crc(id, object, unit, valid));
    place(&words, out)
}

// The record at the front of a part with so many records left.
#[unsafe(no_mangle)]
pub extern "C" fn carryfs_next(part: &[u8], remaining: usize, out: &mut [u64]) -> u32
    ensures { (result ≡ status_of (room 5 out.old)) × (out.new ≡ placed (room 5 out.old) (step_words remaining (next_record part.now remaining)) out.old) }
{
    let words = carryfs::step_words(remaining, lookup::next_record(part, remaining));
    place(&words, out)
}

// The last record whose key is not above the sought one. Without room for the answer the scratch isn't written either.
#[unsafe(no_mangle)]
pub extern "C" fn carryfs_lookup(
    payload: &[u8],
    count: usize,
    key: &[u8],
    scratch: &mut [u16],
    out: &mut [u64],
) -> u32
    ensures value { result ≡ status_of (room 4 out.old) }
    ensures out_after { out.new ≡ placed (room 4 out.old) (floor_words (floor_answer payload.now count key.now (length scratch.old))) out.old }
    ensures scratch_after { scratch.new ≡ cond (room 4 out.old) (scratch_of payload.now count scratch.old) scratch.old }
{
    if out.len() < 4 {
        return 1;
    }
    let words = carryfs::floor_words(lookup::floor_answer(payload, count, key, scratch));
    place(&words, out)
}

// The root in a slot's block: its numbers in `out`, its UUID and its label's bytes in `text`.
#[unsafe(no_mangle)]
pub extern "C" fn carryfs_root(
    bytes: &[u8],
    slot: u64,
    blocks: u64,
    out: &mut [u64],
    text: &mut [u8],
) -> u32
    ensures value { result ≡ status_of (room 18 out.old && room 271 text.old) }
    ensures out_after { out.new ≡ placed (room 18 out.old && room 271 text.old) (root_words (root_decode bytes.now slot blocks)) out.old }
    ensures text_after { text.new ≡ placed (room 18 out.old && room 271 text.old) (root_text (root_decode bytes.now slot blocks)) text.old }
{
    if out.len() < 18 {
        return 1;
    }
    if text.len() < 271 {
        return 1;
    }
    let decoded = Root::decode(bytes, slot, blocks);
    lay(&carryfs::root_words(decoded), out);
    lay(&carryfs::root_text(decoded), text);
    0
}

// The current root of two slots' blocks.
#[unsafe(no_mangle)]
pub extern "C" fn carryfs_select(
    first: &[u8],
    first_slot: u64,
    first_blocks: u64,
    second: &[u8],
    second_slot: u64,
    second_blocks: u64,
    out: &mut [u64],
) -> u32
    ensures value { result ≡ status_of (room 4 out.old) }
    ensures out_after { out.new ≡ placed (room 4 out.old) (choice_words (choose_root (slot_root first.now first_slot first_blocks) (slot_root second.now second_slot second_blocks))) out.old }
{
    let a = carryfs::slot_root(first, first_slot, first_blocks);
    let b = carryfs::slot_root(second, second_slot, second_blocks);
    let words = carryfs::choice_words(root::choose_root(a, b));
    place(&words, out)
}

// Kept: C gives a kind, a level and a reference as numbers, each as a parameter.
#[tactic(auto, unfolding(carryfs::specs::Words::asked_page))]
fn asked_page(
    bytes: &[u8],
    block: u64,
    generation: u64,
    uuid: &[u8; 16],
    kind: u32,
    parent: u64,
    level: u8,
    blocks: u64,
) -> [u64; 7]
    ensures { result ≡ asked_page bytes.now block generation uuid.now kind parent level blocks }
{
    let reference = TreeRef { block, generation };
    let tree = volume::tree_kind_of(u64::from(kind));
    let expected = page::expected_of(level);
    carryfs::page_words(page::page_answer(bytes, reference, uuid, tree, parent, expected, blocks))
}

// The page that a reference names.
#[tactic(auto, unfolding(carryfs::specs::Words::can_ask))]
#[unsafe(no_mangle)]
pub extern "C" fn carryfs_page(
    bytes: &[u8],
    block: u64,
    generation: u64,
    uuid: &[u8],
    kind: u32,
    parent: u64,
    level: u32,
    blocks: u64,
    out: &mut [u64],
) -> u32
    ensures value { result ≡ asked_status (can_ask (length uuid.now) kind level) (room 7 out.old) }
    ensures out_after { out.new ≡ placed (can_ask (length uuid.now) kind level && room 7 out.old) (asked_page bytes.now block generation uuid.now kind parent level blocks) out.old }
{
    let (Ok(id), Ok(level), 1..=4) = (<&[u8; 16]>::try_from(uuid), u8::try_from(level), kind) else {
        return 2;
    };
    let words = asked_page(bytes, block, generation, id, kind, parent, level, blocks);
    place(&words, out)
}

#[tactic(auto, unfolding(search::specs::Given::asked_search))]
fn asked_search(
    image: &[u8],
    root: &[u64; 18],
    text: &[u8; 271],
    kind: u32,
    key: &[u8],
    count: u64,
) -> [u64; 8]
    ensures { result ≡ asked_search image.now root.now text.now kind key.now count }
{
    let root = search::words::root_given(root, text);
    let tree = volume::tree_kind_of(u64::from(kind));
    search::words::search_words(search::search(image, root, tree, key, Searches { count }))
}

// The record with a key in a tree of an image, from the tree's root page down.
#[tactic(auto, unfolding(search::specs::Given::can_search))]
#[unsafe(no_mangle)]
pub extern "C" fn carryfs_search(
    image: &[u8],
    root: &[u64],
    text: &[u8],
    kind: u32,
    key: &[u8],
    count: u64,
    out: &mut [u64],
) -> u32
    ensures value { result ≡ asked_status (can_search (length root.now) (length text.now) kind) (room 8 out.old) }
    ensures out_after { out.new ≡ placed (can_search (length root.now) (length text.now) kind && room 8 out.old) (asked_search image.now root.now text.now kind key.now count) out.old }
{
    let (Ok(root), Ok(text), 1..=4) = (
        <&[u64; 18]>::try_from(root),
        <&[u8; 271]>::try_from(text),
        kind,
    ) else {
        return 2;
    };
    let words = asked_search(image, root, text, kind, key, count);
    place(&words, out)
}
