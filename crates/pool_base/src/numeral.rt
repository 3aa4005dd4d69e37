ghost use Rattle.std.specs.Prelude.{◌≡◌, ◌≤◌, IfSome};
ghost use Rattle.pool_base.specs.Numeral.{number_up_to};

use crate::number::read_number;

/// The value of a decimal numeral; `None` where the text is none, or its value is above `most`.
pub fn read_number_up_to(text: &[u8], most: u64) -> Option<u64>
    ensures value { result ≡ number_up_to most text.now }
    ensures within { IfSome result (λ n. n ≤ most) }
{
    let Ok(n) = read_number(text) else {
        return None;
    };
    if n <= most { Some(n) } else { None }
}
