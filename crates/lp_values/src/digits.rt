// Decimal digits in a fixed number of places.
ghost use Rattle.std.specs.Prelude.{◌≡◌, ◌<◌};
ghost use Rattle.lp_values.specs.Digits.{two_digits, four_digits};

/// The last two digits, in ASCII.
pub fn two_digits(number: u8) -> [u8; 2]
    ensures { result ≡ two_digits number }
{
    [b'0' + number / 10 % 10, b'0' + number % 10]
}

/// Four digits, in ASCII.
pub fn four_digits(number: u16) -> [u8; 4]
    requires { number < 10_000 }
    ensures { result ≡ four_digits number }
{
    let [a, b] = two_digits((number / 100) as u8);
    let [c, d] = two_digits((number % 100) as u8);
    [a, b, c, d]
}
