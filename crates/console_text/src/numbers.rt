// A number in an argument.
ghost use Rattle.std.specs.Prelude.{◌≡◌};
ghost use Rattle.console_text.specs.Numbers.{with_digit, number_of, parsed};

const GREATEST: u32 = 255;

// A number with one more digit.
fn with_digit(number: Option<u8>, digit: u8) -> Option<u8>
    ensures { result ≡ with_digit number digit }
{
    let value = number?;
    if digit < b'0' {
        return None;
    }
    if b'9' < digit {
        return None;
    }
    let longer = 10 * (value as u32) + (digit - b'0') as u32;
    if GREATEST < longer {
        return None;
    }
    Some(longer as u8)
}

// The number from 0 to 255 that a text's decimal digits are.
pub fn parse(text: &[u8]) -> Option<u8>
    ensures { parsed result ≡ parsed (number_of text.now) }
{
    if text.is_empty() {
        return None;
    }
    let mut value = Some(0);
    for digit in text {
        value = with_digit(value, *digit);
    }
    value
}
