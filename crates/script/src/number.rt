// Numbers as a script writes them. Relies on nothing.
ghost use Rattle.std.specs.Prelude.{◌≡◌, ◌≤◌, length, if◌then◌else◌, Some, None};
ghost use Rattle.script.specs.Numbers.{number};
ghost use Rattle.std.specs.Str.Parse.{digits_value as value_in};
ghost use Rattle.std.specs.Str.{all_ascii_digits};

// With so many digits no number is too large for its type.
const MAX_DIGITS: usize = 9;

// The number that the digits write, where there is nothing but digits: in one pass, where `all`, `from_utf8` and `parse`
// make three, and `parse_command` took 1.7 times as long with them.
fn digits_value(text: &[u8]) -> Option<usize>
    requires { length text.now ≤ 9 }
    ensures value { result ≡ (if all_ascii_digits text.now then Some (value_in 10 text.now) else None) }
{
    let mut value: usize = 0;
    for byte in text {
        if !byte.is_ascii_digit() {
            return None;
        }
        value = 10 * value + usize::from(*byte - b'0');
    }
    Some(value)
}

// The number that 1 to 9 digits write.
pub fn parse_number(text: &[u8]) -> Option<usize>
    ensures value { result ≡ number text.now }
{
    if text.is_empty() || text.len() > MAX_DIGITS {
        return None;
    }
    digits_value(text)
}
