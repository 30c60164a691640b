// What digits are worth.
ghost use Rattle.std.specs.Prelude.{◌≡◌, ◌<◌, ◌≤◌, MatchOption};
ghost use Rattle.tokens.specs.declared.byte.Class.TheVariants.{Digit};
ghost use Rattle.tokens.specs.Bytes.{AllIn};
ghost use Rattle.tokens.specs.Numbers.{worth};

// The largest number.
const MAX_NUMBER: u32 = 2147483647;

// The number that digits are, unless it is too large.
pub fn number(digits: &[u8]) -> Option<u32>
    requires { AllIn Digit digits.now }
    ensures { MatchOption result (2147483647 < worth digits.now) (λ v. (v ≡ worth digits.now) × (v ≤ 2147483647)) }
{
    let mut sum: u32 = 0;
    for d in digits {
        sum = sum.checked_mul(10)?.checked_add(u32::from(*d - b'0'))?;
    }
    if sum > MAX_NUMBER {
        return None;
    }
    Some(sum)
}
