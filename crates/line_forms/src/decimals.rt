//! Decimal numbers.

ghost use Rattle.std.specs.Prelude.{◌≡◌, ℕ, ◌≤◌, ◌<◌, ◌^◌, nat_lt, length, IfSome, IsTrue};
ghost use Rattle.std.specs.List.{list_all};
ghost use Rattle.std.specs.Char.{digit_value};
ghost use Rattle.std.specs.Str.Parse.{digits_value, AllDigits};
ghost use Rattle.line_forms.specs.Forms.{is_decimal, number_of};

/// The number that one to so many decimal digits write, where it is from `least` to `greatest`.
pub fn number_of(digits: usize, least: u64, greatest: u64, word: &[u8]) -> Option<u64>
    requires { digits ≤ 20 }
    ensures value { result ≡ number_of digits least greatest word.now }
    ensures within { IfSome result (λ number. number ≤ greatest) }
{
    if !is_decimal(digits, word) {
        return None;
    }
    let value = value_of(word);
    if u128::from(least) <= value && value <= u128::from(greatest) {
        Some(value as u64)
    } else {
        None
    }
}

/// Whether a word is one to so many decimal digits.
pub fn is_decimal(most: usize, word: &[u8]) -> bool
    ensures value { result ≡ is_decimal most word.now }
    ensures digits { IsTrue result → AllDigits 10 word.now }
    ensures short { IsTrue result → length word.now ≤ most }
{
    let digits = are_digits(word);
    1 <= word.len() && word.len() <= most && digits
}

fn are_digits(word: &[u8]) -> bool
    ensures { result ≡ list_all (λ byte. nat_lt (digit_value byte) 10) word.now }
{
    let mut all = true;
    for byte in word {
        all &= byte.is_ascii_digit();
    }
    all
}

/// The number that at most twenty decimal digits write.
pub fn value_of(word: &[u8]) -> u128
    requires short { length word.now ≤ 20 }
    requires digits { AllDigits 10 word.now }
    ensures value { result ≡ digits_value 10 word.now }
    ensures small { (most : ℕ) → length word.now ≤ most → result < 10 ^ most }
{
    // All but the last digit write a number of 64 bits.
    let Some((last, front)) = word.split_last() else {
        return 0;
    };
    u128::from(front_value(front)) * 10 + u128::from(*last - b'0')
}

// The number that at most nineteen decimal digits write.
fn front_value(word: &[u8]) -> u64
    requires short { length word.now ≤ 19 }
    requires digits { AllDigits 10 word.now }
    ensures value { result ≡ digits_value 10 word.now }
    ensures small { result < 10 ^ 19 }
{
    let mut value: u64 = 0;
    for digit in word {
        value = value * 10 + u64::from(*digit - b'0');
    }
    value
}
