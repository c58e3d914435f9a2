// A number's decimal digits, stored into a lent buffer as far as it goes.
ghost use Rattle.std.specs.Prelude.{◌≡◌, ◌+◌, ◌<◌, ◌≤◌, length, set, slice_set};
ghost use Rattle.document.specs.Text.{decimal};
ghost use Rattle.std.proofs.lemmas.List.Edits.{sets};

// One byte at a place, where the buffer has it. Kept: a test of the place, since with `get_mut` the proof stays open.
pub fn put_at(out: &mut [u8], at: usize, b: u8)
    ensures { out.new ≡ slice_set out.old at b }
{
    if at < out.len() {
        out[at] = b;
    }
}

// How many digits a number below 100,000 has: at most five.
pub fn width_to_five(v: u32) -> usize
    requires { v < 100000 }
    ensures { (result ≡ length (decimal v)) × (result ≤ 5) }
{
    // Kept: comparisons, of which the edit width_off_by_one makes one wrong; a logarithm would need a case for 0 besides.
    if v < 10 {
        return 1;
    }
    if v < 100 {
        return 2;
    }
    if v < 1000 {
        return 3;
    }
    if v < 10000 {
        return 4;
    }
    5
}

// How many digits a number has, by comparisons. A number of a set has at most five; a longer number is divided once.
fn width(v: u32) -> usize
    ensures { (result ≡ length (decimal v)) × (result ≤ 10) }
{
    if v < 100000 {
        return width_to_five(v);
    }
    5 + width_to_five(v / 100000)
}

// A digit's byte: its value above that of `0`.
fn digit(n: u32) -> u8
    requires { n ≤ 9 }
    ensures { result ≡ 48 + n }
{
    (48 + n) as u8
}

// A number's digits from a place on, the last one stored first; the answer is how many it has.
pub fn put_digits(out: &mut [u8], at: usize, v: u32) -> usize
    ensures { (out.new ≡ sets out.old at (decimal v)) × (result ≡ length (decimal v)) × (result ≤ 10) }
{
    let digits = width(v);
    if out.len() <= at {
        return digits;
    }
    let end = at + digits;
    let mut n = v;
    let mut i = end;
    // Kept: a while loop, since the number itself says how often it is divided.
    while 10 <= n {
        i -= 1;
        put_at(out, i, digit(n % 10));
        n = n / 10;
    }
    put_at(out, at, digit(n));
    digits
}
