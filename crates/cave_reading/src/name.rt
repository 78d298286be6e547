//! A block's name as it is printed: `shown_name` of specs/Texts.antt.
ghost use Rattle.std.specs.Fmt.{WritesOnOk};
ghost use Rattle.std.specs.Prelude.{◌≡◌, ◌<◌};
ghost use Rattle.cave_reading.specs.Texts.{hex_digit, shown_byte};

use std::fmt;

/// A name whose `Display` is its printable ASCII other than the backslash, and any other byte as `\x` and two digits.
#[derive(Clone, Copy)]
pub struct ShownName<'a> {
    bytes: &'a [u8],
}

impl<'a> ShownName<'a> {
    /// The name of these bytes.
    pub fn new(bytes: &'a [u8]) -> ShownName<'a>
        ensures { result.bytes.now ≡ bytes.now }
    {
        ShownName { bytes }
    }
}

/// The digit of a number below 16, in lower case.
fn hex_digit(number: u8) -> u8
    requires { number < 16 }
    ensures { result ≡ hex_digit number }
{
    if 10 <= number {
        return 87 + number;
    }
    48 + number
}

/// A byte of a name: printable ASCII other than the backslash is written as it is, any other byte as `\x` and two
/// digits.
fn write_byte<W: fmt::Write>(byte: u8, f: &mut fmt::Formatter<W>) -> fmt::Result
    ensures { WritesOnOk W.write_str_gives f.old result (shown_byte byte) f.new }
{
    match byte {
        b'\\' => write!(f, "\\x5c"),
        b' '..=b'~' => write!(f, "{}", byte as char),
        _ => {
            let high = hex_digit(byte / 16) as char;
            let low = hex_digit(byte % 16) as char;
            write!(f, "\\x{high}{low}")
        }
    }
}

impl fmt::Display for ShownName<'_> {
    ghost use Rattle.std.specs.Prelude.{Some};
    ghost use Rattle.cave_reading.specs.Texts.{shown_name};

    ghost output = { λ name. Some (shown_name name.bytes.now) };

    fn fmt<W: fmt::Write>(&self, f: &mut fmt::Formatter<W>) -> fmt::Result {
        for byte in self.bytes {
            write_byte(*byte, f)?;
        }
        Ok(())
    }
}
