// Failures of the reading checks, and the answers of a check. Document 01, "Return classes", and document 02.
#![tactic(auto)]

pub mod reason;

ghost use Rattle.std.specs.Prelude.{◌≡◌};
ghost use Rattle.error.specs.Answer.{violation_of, class_number, class_of, reason_of, check_class, check_reason};

// A refusal: its class, and the number of its reason.
// Kept: reasons are numbers: document 01 fixes it, and callers of octets' readers give any number as theirs.
#[derive(Clone, Copy, Debug, PartialEq, Eq)]
pub enum Error {
    InvalidGeometry,
    InvalidInput(u16),
    Corrupt(u16),
    UnsupportedFormat,
    InvalidName(u16),
    TooLong(u16),
    Added(Class),
}

// The classes that requests added, from 7 up, in the order of their numbers; each carries reason 0. Document 02.
#[derive(Clone, Copy, Debug, PartialEq, Eq)]
pub enum Class {
    // A block ends beyond the image.
    BeyondImage,
    // A key is outside the bounds of its page.
    OutOfBounds,
    // A date, a number of months or the end of a term is outside the calendar.
    OutOfCalendar,
    // An output is not 4,096 bytes long.
    OutputLength,
    // Records take more than a page's payload.
    RecordsTooLong,
    // A time has no count of 100 nanoseconds, or a count no time.
    NoWindowsTime,
    // An output list is shorter than the slot list.
    ListTooShort,
    // Two packed pages aren't apart: by their keys, or by their blocks.
    NotApart,
    // No record that ends inside the payload refuses the page.
    NoRecordRefused,
    // There is no such desk.
    NoSuchDesk,
    // A desk's count is too close to its end.
    DeskFull,
}

// Whether a violation is the caller's error or on-disk corruption.
#[derive(Clone, Copy, Debug, PartialEq, Eq)]
pub enum Validation {
    Input,
    Disk,
}

// The refusal of a violation: class 2 in mode Input, class 3 in mode Disk.
pub fn violation(mode: Validation, reason: u16) -> Error
    ensures { result ≡ violation_of mode reason }
{
    match mode {
        Validation::Input => Error::InvalidInput(reason),
        Validation::Disk => Error::Corrupt(reason),
    }
}

// The number of a class that was added.
pub fn class_number(class: Class) -> u16
    ensures { result ≡ class_number class }
{
    match class {
        Class::BeyondImage => 7,
        Class::OutOfBounds => 8,
        Class::OutOfCalendar => 9,
        Class::OutputLength => 10,
        Class::RecordsTooLong => 11,
        Class::NoWindowsTime => 12,
        Class::ListTooShort => 13,
        Class::NotApart => 14,
        Class::NoRecordRefused => 15,
        Class::NoSuchDesk => 16,
        Class::DeskFull => 17,
    }
}

// The number of a refusal's class.
pub fn class_of(e: Error) -> u16
    ensures { result ≡ class_of e }
{
    match e {
        Error::InvalidGeometry => 1,
        Error::InvalidInput(_) => 2,
        Error::Corrupt(_) => 3,
        Error::UnsupportedFormat => 4,
        Error::InvalidName(_) => 5,
        Error::TooLong(_) => 6,
        Error::Added(class) => class_number(class),
    }
}

// The number of a refusal's reason, 0 for a class without one.
pub fn reason_of(e: Error) -> u16
    ensures { result ≡ reason_of e }
{
    match e {
        Error::InvalidGeometry | Error::UnsupportedFormat | Error::Added(_) => 0,
        Error::InvalidInput(n) | Error::Corrupt(n) | Error::InvalidName(n) | Error::TooLong(n) => n,
    }
}

// The class of a check's answer, 0 where it passed.
pub fn check_class<T: Copy>(c: Result<T, Error>) -> u16
    ensures { result ≡ check_class c }
{
    c.err().map_or(0, class_of)
}

// The reason of a check's answer, 0 where it passed.
pub fn check_reason<T: Copy>(c: Result<T, Error>) -> u16
    ensures { result ≡ check_reason c }
{
    c.err().map_or(0, reason_of)
}
