//! Numbers.
ghost use Rattle.std.specs.Prelude.{◌≡◌, ◌+◌, ◌/◌, ◌%◌, ◌^◌, ◌<◌, [], ◌∷◌};
ghost use Rattle.std.specs.Fmt.{decimal};
ghost use Rattle.dlk_grammar.specs.Shown.{literal, last_digits};
ghost use Rattle.dlk_print.specs.Printed.{Appends};

use crate::appending::append;
use crate::fault::PrintFault;
use dlk_tree::Num;

fn append_digit(out: &mut Vec<u8>, n: u128) -> Result<(), PrintFault>
    ensures { Appends out.old.items out.new.items ((48 + n % 10) ∷ []) result }
{
    append(out, &[b'0' + (n % 10) as u8])
}

/// Appends the number in decimal. Without memory a prefix of it was appended.
///
/// # Errors
///
/// `Memory` alone.
pub fn append_decimal(out: &mut Vec<u8>, n: u128) -> Result<(), PrintFault>
    ensures { Appends out.old.items out.new.items (decimal n) result }
{
    if n < 1_000_000_000 {
        return append_short(out, n as u32);
    }
    append_decimal(out, n / 10)?;
    append_digit(out, n)
}

/// Appends a number of at most nine digits, all of them at once.
fn append_short(out: &mut Vec<u8>, n: u32) -> Result<(), PrintFault>
    requires { n < 1000000000 }
    ensures { Appends out.old.items out.new.items (decimal n) result }
{
    let mut digits = [b'0'; 9];
    let mut first = 8;
    let mut left = n;
    while left > 9 {
        digits[first] = b'0' + (left % 10) as u8;
        left /= 10;
        first -= 1;
    }
    digits[first] = b'0' + left as u8;
    append(out, &digits[first..])
}

/// Appends the last digits of the number, as many as the width says.
fn append_last_digits(out: &mut Vec<u8>, width: u8, n: u128) -> Result<(), PrintFault>
    ensures { Appends out.old.items out.new.items (last_digits width n) result }
{
    if width == 0 {
        return Ok(());
    }
    append_last_digits(out, width - 1, n / 10)?;
    append_digit(out, n)
}

/// What stands before the point.
fn integer_part(n: &Num) -> u128
    ensures { result ≡ n.now.digits / 10 ^ n.now.scale }
{
    let mut left = n.digits;
    let mut scale = n.scale;
    while scale > 0 {
        left /= 10;
        scale -= 1;
    }
    left
}

/// Appends the number, with a point where it has a scale. Without memory a prefix of it was appended.
///
/// # Errors
///
/// `Memory` alone.
pub fn append_number(out: &mut Vec<u8>, n: &Num) -> Result<(), PrintFault>
    ensures { Appends out.old.items out.new.items (literal n.now) result }
{
    if n.scale == 0 {
        return append_decimal(out, n.digits);
    }
    append_decimal(out, integer_part(n))?;
    append(out, b".")?;
    append_last_digits(out, n.scale, n.digits)
}
