//! Numbers among the words.

ghost use Rattle.std.specs.Prelude.{◌≡◌, ◌≤◌, ◌<◌, IfSome, None};
ghost use Rattle.std.specs.List.{list_all};
ghost use Rattle.ob_words.specs.Numbers.{is_digit, is_number, value_from, up_to, number_of};

fn is_digit(b: u8) -> bool
    ensures { result ≡ is_digit b }
{
    b'0' <= b && b <= b'9'
}

fn are_digits(text: &[u8]) -> bool
    ensures { result ≡ list_all is_digit text.now }
{
    text.iter().all(|b| is_digit(*b))
}

fn is_number(text: &[u8]) -> bool
    ensures { result ≡ is_number text.now }
{
    1 <= text.len() && text.len() <= 10 && are_digits(text)
}

fn up_to(most: u32, number: u32) -> Option<u32>
    ensures { result ≡ up_to most number }
{
    if 1 <= number && number <= most {
        Some(number)
    } else {
        None
    }
}

// The value of digits behind others of this value, where it is at most so much.
#[tactic(auto, using(crate::proofs::Values::over))]
fn value_of(most: u32, before: u32, digits: &[u8]) -> Option<u32>
    requires most { most ≤ 1000000000 }
    requires before { before ≤ most }
    ensures value { IfSome result (λ n. (n ≡ value_from before digits.now) × (n ≤ most)) }
    ensures none { result ≡ None → most < value_from before digits.now }
{
    match digits {
        [] => Some(before),
        [digit, more @ ..] => {
            let value = before as u64 * 10 + digit.saturating_sub(b'0') as u64;
            if value > most as u64 {
                return None;
            }
            value_of(most, value as u32, more)
        }
    }
}

/// The number that a text says: 1 to 10 decimal digits, the value being 1 to `most`.
pub fn number_of(most: u32, text: &[u8]) -> Option<u32>
    requires { most ≤ 1000000000 }
    ensures { result ≡ number_of most text.now }
{
    if !is_number(text) {
        return None;
    }
    match value_of(most, 0, text) {
        Some(value) => up_to(most, value),
        None => None,
    }
}
