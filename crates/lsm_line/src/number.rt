//! Numbers as scripts write them: 1 to 20 decimal digits, of a value below 2^64.

ghost use Rattle.std.specs.Prelude.{◌≡◌};
ghost use Rattle.lsm_line.specs.Numbers.{number};

/// The number that a word writes: 1 to 20 decimal digits, of a value below 2^64.
#[tactic(auto, unfolding(crate::specs::Numbers::number))]
pub fn read_number(word: &[u8]) -> Option<u64>
    ensures { result ≡ number word.now }
{
    if word.is_empty() || word.len() > 20 {
        return None;
    }
    let mut value = 0u64;
    for byte in word {
        if !byte.is_ascii_digit() {
            return None;
        }
        let digit = u64::from(*byte - b'0');
        value = value.checked_mul(10)?.checked_add(digit)?;
    }
    Some(value)
}
