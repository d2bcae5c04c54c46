ghost use Rattle.std.specs.Prelude.{◌≡◌, ◌≤◌, IfSome};
ghost use Rattle.std.specs.Char.{is_ascii_hexdigit};
ghost use Rattle.std.specs.List.{list_all};
ghost use Rattle.tr_commands.specs.Asks.{count_value, is_numeral, numeral_value};

use crate::commands::MOST;

/// The number of one to eight hexadecimal digits of either case. `None` for any other text, also for one with a prefix
/// or a sign.
pub(crate) fn hexadecimal(text: &str) -> Option<u32>
    ensures { result ≡ numeral_value text.now }
{
    if is_numeral(text.as_bytes()) {
        u32::from_str_radix(text, 16).ok()
    } else {
        None
    }
}

fn is_numeral(text: &[u8]) -> bool
    ensures { result ≡ is_numeral text.now }
{
    1 <= text.len() && text.len() <= 8 && all_digits(text)
}

fn all_digits(text: &[u8]) -> bool
    ensures { result ≡ list_all is_ascii_hexdigit text.now }
{
    text.iter().all(|byte| byte.is_ascii_hexdigit())
}

/// A whole number from 1 to 100,000,000, of decimal digits, before which a plus may stand. `None` for any other text.
pub(crate) fn count(text: &str) -> Option<u64>
    ensures value { result ≡ count_value text.now }
    ensures bounds { IfSome result (λ n. (1 ≤ n) × (n ≤ 100000000)) }
{
    let count = text.parse::<u64>().ok()?;
    if 1 <= count && count <= MOST {
        Some(count)
    } else {
        None
    }
}
