//! The numbers of the command line.

ghost use Rattle.std.specs.Prelude.{◌≡◌, ◌≤◌, IfSome};
ghost use Rattle.std.specs.Str.{all_ascii_digits};
ghost use Rattle.scan_words.specs.Bounds.{LiesBetween};
ghost use Rattle.scan_words.specs.Numbers.{is_digits, number_between, where_between};

/// The number that the text writes in digits alone, where it lies between the bounds.
pub fn number_between(least: u64, most: u64, text: &str) -> Option<u64>
    ensures number { result ≡ number_between least most text.now }
    ensures bounds { IfSome result (LiesBetween least most) }
{
    if !is_digits(text) {
        return None;
    }
    match text.parse::<u64>() {
        Ok(number) => where_between(least, most, number),
        Err(_) => None,
    }
}

/// The number, where it lies between the bounds.
fn where_between(least: u64, most: u64, number: u64) -> Option<u64>
    ensures number { result ≡ where_between least most number }
    ensures bounds { IfSome result (LiesBetween least most) }
{
    if least <= number && number <= most {
        Some(number)
    } else {
        None
    }
}

/// Whether the text has an ASCII digit or more, and nothing else.
fn is_digits(text: &str) -> bool
    ensures { result ≡ is_digits text.now }
{
    !text.is_empty() && are_digits(text.as_bytes())
}

/// Whether each byte is an ASCII digit.
fn are_digits(bytes: &[u8]) -> bool
    ensures { result ≡ all_ascii_digits bytes.now }
{
    for byte in bytes {
        if !byte.is_ascii_digit() {
            return false;
        }
    }
    true
}
