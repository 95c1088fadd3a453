//! Bytes as lines of lower-case hexadecimal digits.

ghost use Rattle.std.specs.Prelude.{◌≡◌, ◌+◌, ◌*◌, ◌<◌, IfOk, length, slice_index};
ghost use Rattle.hex.specs.Hex.{encode_lower, lower_digits};
ghost use Rattle.sshc_wire.specs.DigitLines.{text_line};

use crate::error::NoMemory;
use crate::source::lengthen;

/// The digit of a number below 16. It is computed and not looked up, so that a compiler can make many at once.
#[tactic(auto, using(crate::proofs::DigitLemmas::digit_small, crate::proofs::DigitLemmas::digit_large))]
fn digit(value: u8) -> u8
    requires { value < 16 }
    ensures { result ≡ slice_index lower_digits value }
{
    if value < 10 { value + 48 } else { value + 87 }
}

/// Writes each byte as two digits, the high four bits first, over what stood in the line.
fn write_digits(line: &mut [u8], bytes: &[u8])
    requires { length line.old ≡ 2 * length bytes.now }
    ensures { line.new ≡ encode_lower bytes.now }
{
    'bytes: for i in 0..bytes.len() {
        let byte = bytes[i];
        line[2 * i] = digit(byte >> 4);
        line[2 * i + 1] = digit(byte & 0x0f);
    }
}

/// Writes the bytes as lower-case hexadecimal digits and a line feed over a line of that length.
fn write_digit_line(line: &mut [u8], bytes: &[u8])
    requires { length line.old ≡ 2 * length bytes.now + 1 }
    ensures { line.new ≡ text_line bytes.now }
{
    let digits = 2 * bytes.len();
    write_digits(&mut line[..digits], bytes);
    line[digits] = b'\n';
}

/// Makes the bytes a line, lower-case hexadecimal digits followed by a line feed, at the front of this memory. The
/// memory is only ever made longer, so that what a line before wrote isn't cleared; no clause says so.
pub fn digit_line<'a>(memory: &'a mut Vec<u8>, bytes: &[u8]) -> Result<&'a [u8], NoMemory>
    ensures { IfOk result (λ line. line.now ≡ text_line bytes.now) }
{
    let length = 2 * bytes.len() + 1;
    lengthen(memory, length)?;
    let line = &mut memory.as_mut_slice()[..length];
    write_digit_line(line, bytes);
    Ok(line)
}
