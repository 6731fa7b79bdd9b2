// Decimal numbers with an optional minus, and how they are read.
ghost use Rattle.std.specs.Prelude.{◌≡◌, ◌≤◌, length};
ghost use Rattle.command.specs.Numbers.{magnitude_from, within, most_digits, signed_of, number_of};

// The most digits that a number may have.
pub const DIGITS: usize = 10;

// The number that at most `DIGITS` digits say, or none where a byte is no digit.
pub(crate) fn magnitude_of(digits: &[u8]) -> Option<u64>
    requires { length digits.now ≤ most_digits }
    ensures { result ≡ magnitude_from 0 digits.now }
{
    let mut value = 0;
    for digit in digits {
        if !digit.is_ascii_digit() {
            return None;
        }
        value = value * 10 + u64::from(digit - b'0');
    }
    Some(value)
}

// A number with this sign and magnitude, where 32 bits hold it.
pub(crate) fn ranged(minus: bool, magnitude: u64) -> Option<i32>
    ensures { result ≡ within minus magnitude }
{
    let value = i64::try_from(magnitude).ok()?;
    i32::try_from(if minus { -value } else { value }).ok()
}

// The number of 1 to `DIGITS` digits after its sign.
pub(crate) fn signed(minus: bool, digits: &[u8]) -> Option<i32>
    ensures { result ≡ signed_of minus digits.now }
{
    if digits.is_empty() || DIGITS < digits.len() {
        return None;
    }
    ranged(minus, magnitude_of(digits)?)
}

// The number that a field of a line says.
pub(crate) fn number_of(field: &[u8]) -> Option<i32>
    ensures { result ≡ number_of field.now }
{
    match field.strip_prefix(b"-") {
        Some(digits) => signed(true, digits),
        None => signed(false, field),
    }
}
