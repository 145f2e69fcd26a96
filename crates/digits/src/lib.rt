// Digits of hexadecimal and big-endian fields, in lent bytes.
#![tactic(auto)]

ghost use Rattle.std.specs.Prelude.{[], ◌∷◌, ◌≡◌, ◌/◌, ◌%◌, ◌^◌, ◌<◌, ◌≤◌};
ghost use Rattle.std.proofs.lemmas.List.Edits.{sets};
ghost use Rattle.rule.specs.Places.{at};
ghost use Rattle.digits.specs.Digits.{is_digit, digit_value, digit_of, all_digits, bytes_of, digits_of};
ghost use Rattle.digits.specs.Fields.{field_at, field};

// Ten below A, so that A counts ten.
const TEN_BELOW_A: u8 = 0x37;

// Whether a line has digits alone.
pub fn all_digits(line: &[u8]) -> bool
    ensures { result ≡ all_digits line.now }
{
    line.iter().all(|&c| is_digit(c))
}

// 0 to 9 and A to F: no lower case.
fn is_digit(c: u8) -> bool
    ensures { result ≡ is_digit c }
{
    matches!(c, b'0'..=b'9' | b'A'..=b'F')
}

// The byte at place i that a line's digits stand for; 0 past the last, as a list is read (`at`), and no Option. Of other characters it is
// some number, of no use.
pub fn byte_at(line: &[u8], i: usize) -> u32
    ensures value { result ≡ at (bytes_of line.now) i }
    ensures small { result ≤ 3400 }
{
    let (pairs, _) = line.as_chunks::<2>();
    let Some(&[high, low]) = pairs.get(i) else {
        return 0;
    };
    digit_value(high) * 16 + digit_value(low)
}

// What a digit counts, and what its definition gives for any other byte.
fn digit_value(c: u8) -> u32
    ensures value { result ≡ digit_value c }
    ensures small { result ≤ 200 }
{
    let counts = if c <= b'9' {
        c.saturating_sub(b'0')
    } else {
        c - TEN_BELOW_A
    };
    u32::from(counts)
}

// The number in two bytes from place i on; 0 past the last, as `byte_at`.
pub fn pair_at(line: &[u8], i: usize) -> u32
    ensures { result ≡ field_at 2 (bytes_of line.now) i }
{
    // Past the last byte both are 0, and i + 1 may be no usize.
    if i >= line.len() / 2 {
        return 0;
    }
    byte_at(line, i) * 256 + byte_at(line, i + 1)
}

// Writes a byte's two digits where there is room. Who has a buffer and a place together is `writing::Writer`, which calls this.
pub fn put_byte(out: &mut [u8], at: usize, byte: u8)
    ensures { out.new ≡ sets out.old at (digits_of (byte ∷ [])) }
{
    // By index, since of a slice that `get_mut` wrote to a proof knows the length alone.
    let n = out.len();
    if at >= n {
        return;
    }
    out[at] = digit_of(byte / 16);
    if at + 1 >= n {
        return;
    }
    out[at + 1] = digit_of(byte % 16);
}

// The digit that counts v: the library's `from_digit` gives small letters.
fn digit_of(v: u8) -> u8
    requires { v < 16 }
    ensures { result ≡ digit_of v }
{
    if v < 10 { v + b'0' } else { v + TEN_BELOW_A }
}

// Writes a value in `width` bytes, where there is room. As `put_byte`: `writing::Writer` has the buffer and the place together.
pub fn put_field(out: &mut [u8], at: usize, width: u8, value: u32)
    ensures { out.new ≡ sets out.old at (digits_of (field width value)) }
{
    // Past the end nothing is stored, and a place there may be no usize.
    if at >= out.len() {
        return;
    }
    for i in 0..width {
        put_byte(out, at + 2 * usize::from(i), byte_of(value, width - 1 - i));
    }
}

// The byte of a value that has `after` bytes after it.
fn byte_of(value: u32, after: u8) -> u8
    ensures { result ≡ value / 256 ^ after % 256 }
{
    value
        .to_le_bytes()
        .get(usize::from(after))
        .copied()
        .unwrap_or(0)
}
