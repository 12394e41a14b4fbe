// Numbers in print.
ghost use Rattle.std.specs.Prelude.{◌≡◌, ◌+◌, ◌%◌};
ghost use Rattle.cases.specs.Digits.{decimal};

use crate::buffer::Buffer;

// The digits of a number.
pub type Decimal = Buffer<5>;

// The last digit.
fn digit(n: u16) -> u8
    ensures { result ≡ 48 + n % 10 }
{
    b'0' + (n % 10) as u8
}

// A number in decimal: its five digits, without the zeros that lead.
pub fn decimal_of(n: u16) -> Decimal
    ensures { result ≡ decimal n }
{
    let digits = [
        digit(n / 10000),
        digit(n / 1000),
        digit(n / 100),
        digit(n / 10),
        digit(n),
    ];
    let zeros = match n {
        0..=9 => 4,
        10..=99 => 3,
        100..=999 => 2,
        1000..=9999 => 1,
        _ => 0,
    };
    let mut decimal = Buffer::empty();
    decimal.push(&digits[zeros..]);
    decimal
}
