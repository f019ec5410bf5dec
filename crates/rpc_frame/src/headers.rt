//! A header part is read by a small machine: where the next byte stands, and which lengths were given so far.
//!
//! A byte is bad exactly where no header part goes on behind it. So each place knows how many bytes are `missing` to a
//! whole header part at the least, and the bound on its length is judged at the first byte that leaves too little room.

ghost use Rattle.std.specs.Prelude.{◌≡◌, ◌≤◌};
ghost use Rattle.rpc_frame.specs.Header.{is_name_byte, is_blank};
ghost use Rattle.rpc_frame.specs.Scanning.{name_place, with_digit, place_after, with_length, lengths_after, scan_after, start, missing};

/// The most bytes that a header part may have.
pub const HEADER_LIMIT: usize = 8192;

/// The name of the field that gives a body's length, in lower case.
const LENGTH_NAME: &[u8; 14] = b"content-length";

/// Where in a header part the next byte stands.
#[derive(Clone, Copy, Debug)]
pub(crate) enum Place {
    /// At the first field's name.
    FirstLine,
    /// At a later field's name or at the empty line.
    NextLine,
    /// In a name whose bytes so far are that many first bytes of `Content-Length`.
    LengthName(usize),
    /// In a name that is none such.
    OtherName,
    /// In a value that gives no length.
    OtherValue,
    /// Among the blanks before a length.
    LengthBefore,
    /// Among the digits of a length, which is this number so far.
    LengthDigits(u64),
    /// Among the blanks behind a length.
    LengthAfter(u64),
    /// After the CR that ends a field.
    FieldEnd,
    /// After the CR of the empty line.
    PartEnd,
    /// Behind the header part.
    Whole,
    /// Where no header part goes on.
    Bad,
}

/// The lengths that a header part has given so far.
#[derive(Clone, Copy, Debug)]
pub(crate) enum Lengths {
    NoneYet,
    One(u64),
    Several,
}

/// What a reader knows of the header bytes that it has seen.
#[derive(Clone, Copy, Debug)]
pub(crate) struct Scan {
    pub(crate) place: Place,
    pub(crate) lengths: Lengths,
}

impl Scan {
    /// Before the first byte.
    pub(crate) fn start() -> Scan
        ensures { result ≡ start }
    {
        Scan {
            place: Place::FirstLine,
            lengths: Lengths::NoneYet,
        }
    }

    /// After one more byte.
    pub(crate) fn after(self, byte: u8) -> Scan
        ensures { result ≡ scan_after self byte }
    {
        Scan {
            place: place_after(self.place, byte),
            lengths: lengths_after(self.place, self.lengths, byte),
        }
    }

    /// How many bytes a header part needs from here on at the least, more than it may have where it cannot go on.
    pub(crate) fn missing(self) -> usize
        ensures { result ≡ missing self.place }
    {
        match self.place {
            Place::FirstLine => 6,
            Place::NextLine => 2,
            Place::LengthName(matched) if matched < LENGTH_NAME.len() => 5,
            Place::LengthName(_) => 6,
            Place::OtherName | Place::LengthBefore => 5,
            Place::OtherValue | Place::LengthDigits(_) | Place::LengthAfter(_) => 4,
            Place::FieldEnd => 3,
            Place::PartEnd => 1,
            Place::Whole => 0,
            Place::Bad => HEADER_LIMIT + 1,
        }
    }
}

fn is_name_byte(byte: u8) -> bool
    ensures { result ≡ is_name_byte byte }
{
    byte != b':' && byte != b'\r' && byte != b'\n'
}

fn is_blank(byte: u8) -> bool
    ensures { result ≡ is_blank byte }
{
    byte == b' ' || byte == b'\t'
}

/// Where a name goes on that so far is that many first bytes of `Content-Length`.
fn name_place(matched: usize, byte: u8) -> Place
    ensures { result ≡ name_place matched byte }
{
    if !is_name_byte(byte) {
        Place::Bad
    } else if matched < LENGTH_NAME.len() && byte.to_ascii_lowercase() == LENGTH_NAME[matched] {
        Place::LengthName(matched + 1)
    } else {
        Place::OtherName
    }
}

/// The number with one more digit, cut to the greatest u64.
fn with_digit(number: u64, digit: u8) -> u64
    requires { 48 ≤ digit }
    ensures { result ≡ with_digit number digit }
{
    number
        .saturating_mul(10)
        .saturating_add(u64::from(digit - b'0'))
}

/// Where a value that gives a length goes on, after this many digits' number, if it has any yet.
fn place_among_digits(number: u64, byte: u8) -> Place
    ensures { result ≡ place_after (Place.LengthDigits number) byte }
{
    if byte.is_ascii_digit() {
        Place::LengthDigits(with_digit(number, byte))
    } else if is_blank(byte) {
        Place::LengthAfter(number)
    } else if byte == b'\r' {
        Place::FieldEnd
    } else {
        Place::Bad
    }
}

fn place_before_digits(byte: u8) -> Place
    ensures { result ≡ place_after Place.LengthBefore byte }
{
    if is_blank(byte) {
        Place::LengthBefore
    } else if byte.is_ascii_digit() {
        Place::LengthDigits(with_digit(0, byte))
    } else {
        Place::Bad
    }
}

fn place_behind_digits(number: u64, byte: u8) -> Place
    ensures { result ≡ place_after (Place.LengthAfter number) byte }
{
    if is_blank(byte) {
        Place::LengthAfter(number)
    } else if byte == b'\r' {
        Place::FieldEnd
    } else {
        Place::Bad
    }
}

/// Where a name goes on that is not the first bytes of `Content-Length`.
fn place_in_other_name(byte: u8) -> Place
    ensures { result ≡ place_after Place.OtherName byte }
{
    if byte == b':' {
        Place::OtherValue
    } else if is_name_byte(byte) {
        Place::OtherName
    } else {
        Place::Bad
    }
}

fn place_in_length_name(matched: usize, byte: u8) -> Place
    ensures { result ≡ place_after (Place.LengthName matched) byte }
{
    if byte != b':' {
        name_place(matched, byte)
    } else if matched < LENGTH_NAME.len() {
        Place::OtherValue
    } else {
        Place::LengthBefore
    }
}

fn place_in_other_value(byte: u8) -> Place
    ensures { result ≡ place_after Place.OtherValue byte }
{
    if byte == b'\r' {
        Place::FieldEnd
    } else if byte == b'\n' {
        Place::Bad
    } else {
        Place::OtherValue
    }
}

/// Where the next byte stands behind this one.
fn place_after(place: Place, byte: u8) -> Place
    ensures { result ≡ place_after place byte }
{
    match place {
        Place::FirstLine => name_place(0, byte),
        Place::NextLine if byte == b'\r' => Place::PartEnd,
        Place::NextLine => name_place(0, byte),
        Place::LengthName(matched) => place_in_length_name(matched, byte),
        Place::OtherName => place_in_other_name(byte),
        Place::OtherValue => place_in_other_value(byte),
        Place::LengthBefore => place_before_digits(byte),
        Place::LengthDigits(number) => place_among_digits(number, byte),
        Place::LengthAfter(number) => place_behind_digits(number, byte),
        Place::FieldEnd if byte == b'\n' => Place::NextLine,
        Place::PartEnd if byte == b'\n' => Place::Whole,
        Place::FieldEnd | Place::PartEnd | Place::Whole | Place::Bad => Place::Bad,
    }
}

/// The lengths with one more.
fn with_length(lengths: Lengths, number: u64) -> Lengths
    ensures { result ≡ with_length lengths number }
{
    match lengths {
        Lengths::NoneYet => Lengths::One(number),
        Lengths::One(_) | Lengths::Several => Lengths::Several,
    }
}

/// The lengths given once the byte has come: the CR behind a length's digits ends its field.
fn lengths_after(place: Place, lengths: Lengths, byte: u8) -> Lengths
    ensures { result ≡ lengths_after place lengths byte }
{
    match place {
        Place::LengthDigits(number) | Place::LengthAfter(number) if byte == b'\r' => {
            with_length(lengths, number)
        }
        _ => lengths,
    }
}
