// Runs the vectors of RFC 3720, appendix B.4, and cases whose words the reference computed, and writes each word in hexadecimal.
#![tactic(auto)]

use std::io;

fn show(rt: &HostRuntime, name: &str, word: u32) -> io::Result<()> {
    println!(rt; "{name}{word:08x}")
}

// A data unit of given valid bytes: class, reason and word.
fn show_unit(rt: &HostRuntime, name: &str, valid: &[u8]) -> io::Result<()> {
    let uuid = b"0123456789abcdef";
    match crc::data_unit_crc(uuid, 0x0102_0304_0506_0708, 0xFFFF_FFFF_FFFF_FFFE, valid) {
        Ok(word) => println!(rt; "{name}0 0 {word:08x}"),
        Err(e) => {
            let class = error::class_of(e);
            let reason = error::reason_of(e);
            println!(rt; "{name}{class:x} {reason:x} 0")
        }
    }
}

fn vectors(rt: &HostRuntime) -> io::Result<()> {
    show(rt, "32 bytes of 00: ", crc::crc32c(&[0u8; 32]))?;
    show(rt, "32 bytes of ff: ", crc::crc32c(&[0xFFu8; 32]))?;
    let up =
        b"\x00\x01\x02\x03\x04\x05\x06\x07\x08\x09\x0a\x0b\x0c\x0d\x0e\x0f\x10\x11\x12\x13\x14\x15\x16\x17\x18\x19\x1a\x1b\x1c\x1d\x1e\x1f";
    show(rt, "00 up to 1f: ", crc::crc32c(up))?;
    let down =
        b"\x1f\x1e\x1d\x1c\x1b\x1a\x19\x18\x17\x16\x15\x14\x13\x12\x11\x10\x0f\x0e\x0d\x0c\x0b\x0a\x09\x08\x07\x06\x05\x04\x03\x02\x01\x00";
    show(rt, "1f down to 00: ", crc::crc32c(down))?;
    let command =
        b"\x01\xc0\0\0\0\0\0\0\0\0\0\0\0\0\0\0\x14\0\0\0\0\0\x04\0\0\0\0\x14\0\0\0\x18\x28\0\0\0\0\0\0\0\x02\0\0\0\0\0\0\0";
    show(rt, "a SCSI Read (10) command: ", crc::crc32c(command))?;
    show(rt, "123456789: ", crc::crc32c(b"123456789"))?;
    show(rt, "no byte: ", crc::crc32c(b""))
}

fn with_zeros(rt: &HostRuntime) -> io::Result<()> {
    let digits = b"123456789";
    show(
        rt,
        "places 3 to 5 as zero: ",
        crc::crc32c_with_zero(digits, 3, 6),
    )?;
    show(
        rt,
        "all places as zero: ",
        crc::crc32c_with_zero(digits, 0, 9),
    )?;
    show(
        rt,
        "an end past the message: ",
        crc::crc32c_with_zero(digits, 7, 99),
    )?;
    show(
        rt,
        "a start past the message: ",
        crc::crc32c_with_zero(digits, 40, 99),
    )?;
    show(
        rt,
        "an end before the start: ",
        crc::crc32c_with_zero(digits, 6, 3),
    )
}

fn registers(rt: &HostRuntime) -> io::Result<()> {
    show(
        rt,
        "12345678 after digits: ",
        crc::software_extend(0x1234_5678, b"123456789"),
    )?;
    show(
        rt,
        "12345678 after no byte: ",
        crc::software_extend(0x1234_5678, b""),
    )?;
    show(
        rt,
        "12345678 after no zero: ",
        crc::extend_zeros(0x1234_5678, 0),
    )?;
    show(
        rt,
        "12345678 after 13 zeros: ",
        crc::extend_zeros(0x1234_5678, 13),
    )?;
    show(
        rt,
        "12345678 after 70000 zeros: ",
        crc::extend_zeros(0x1234_5678, 70_000),
    )
}

fn units(rt: &HostRuntime) -> io::Result<()> {
    let mut bytes = [0xA5u8; 65_537];
    bytes[0] = 1;
    bytes[4095] = 2;
    bytes[65_535] = 3;
    show_unit(rt, "a unit of 0: ", &bytes[..0])?;
    show_unit(rt, "a unit of 1: ", &bytes[..1])?;
    show_unit(rt, "a unit of 4096: ", &bytes[..4096])?;
    show_unit(rt, "a unit of 65535: ", &bytes[..65_535])?;
    show_unit(rt, "a unit of 65536: ", &bytes[..65_536])?;
    show_unit(rt, "a unit of 65537: ", &bytes[..65_537])
}

// Lengths at the borders of a round of three lanes; no two lanes have the same bytes.
fn rounds(rt: &HostRuntime) -> io::Result<()> {
    let mut bytes = [0xA5u8; 8_017];
    bytes[0] = 1;
    bytes[1_335] = 2;
    bytes[1_336] = 3;
    bytes[2_672] = 4;
    bytes[4_007] = 5;
    bytes[4_008] = 6;
    bytes[6_680] = 7;
    bytes[8_016] = 8;
    show(rt, "4007 bytes: ", crc::crc32c(&bytes[..4_007]))?;
    show(rt, "4008 bytes: ", crc::crc32c(&bytes[..4_008]))?;
    show(rt, "4009 bytes: ", crc::crc32c(&bytes[..4_009]))?;
    show(rt, "8016 bytes: ", crc::crc32c(&bytes[..8_016]))?;
    show(rt, "8017 bytes: ", crc::crc32c(&bytes))
}

// Counts of zeros at the borders of a lane.
fn lanes(rt: &HostRuntime) -> io::Result<()> {
    show(rt, "1 after 1335 zeros: ", crc::extend_zeros(1, 1_335))?;
    show(rt, "1 after 1336 zeros: ", crc::extend_zeros(1, 1_336))?;
    show(rt, "1 after 1337 zeros: ", crc::extend_zeros(1, 1_337))?;
    show(rt, "1 after 2672 zeros: ", crc::extend_zeros(1, 2_672))
}

fn run(rt: &HostRuntime) -> io::Result<()> {
    vectors(rt)?;
    with_zeros(rt)?;
    registers(rt)?;
    units(rt)?;
    rounds(rt)?;
    lanes(rt)
}

fn main(rt: HostRuntime) {
    if let Err(e) = run(&rt) {
        let what = b"crc_vectors: writing standard output";
        let _ = stream::fail(&mut rt.stderr(), what, e);
    }
}
