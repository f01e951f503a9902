// Lines, fields and numbers of a text of bytes, as iterators that borrow it.
#![tactic(auto)]

ghost use Rattle.std.specs.Prelude.{◌≡◌, ◌+◌, ◌-◌, ◌*◌, ◌^◌, ◌<◌, ◌≤◌, [], ◌∷◌, MatchOption};
ghost use Rattle.std.specs.Iterator.{YieldsFirstRef, item_count};
ghost use Rattle.definitions.specs.Text.{lines, fields, number_on, number_in};
ghost use Rattle.scan.specs.Cursors.{Cut, lines_left, fields_left};

// The lines of a text that are still to come.
#[derive(Clone, Copy)]
pub struct Lines<'a> {
    pub rest: &'a [u8],
}

// The fields of a line that are still to come: those of `rest`, if there is one.
#[derive(Clone, Copy)]
pub struct Fields<'a> {
    pub rest: Option<&'a [u8]>,
}

// What stands before the first `byte`, and what stands after it, where there is one.
#[tactic(auto, using(crate::proofs::Cutting::cut_none))]
fn cut(bytes: &[u8], byte: u8) -> (&[u8], Option<&[u8]>)
    ensures { Cut byte bytes.now result.0.now result.1 }
{
    match bytes.iter().position(|b| *b == byte) {
        Some(end) => (&bytes[..end], Some(&bytes[end + 1..])),
        None => (bytes, None),
    }
}

impl<'a> Lines<'a> {
    pub fn of(text: &'a [u8]) -> Lines<'a>
        ensures { lines_left result ≡ lines text.now }
    {
        Lines { rest: text }
    }
}

// Each line comes without its line feed.
impl<'a> Iterator for Lines<'a> {
    type Item = &'a [u8];

    ghost next_gives = { YieldsFirstRef lines_left };

    ghost remaining = { item_count lines_left };

    #[tactic(auto, using(crate::proofs::Cutting::next_line))]
    fn next(&mut self) -> Option<&'a [u8]> {
        if self.rest.is_empty() {
            return None;
        }
        let (line, rest) = cut(self.rest, b'\n');
        self.rest = rest.unwrap_or_default();
        Some(line)
    }
}

impl<'a> Fields<'a> {
    pub fn of(line: &'a [u8]) -> Fields<'a>
        ensures { fields_left result ≡ fields line.now }
    {
        Fields { rest: Some(line) }
    }
}

// Each field comes without its comma.
impl<'a> Iterator for Fields<'a> {
    type Item = &'a [u8];

    ghost next_gives = { YieldsFirstRef fields_left };

    ghost remaining = { item_count fields_left };

    #[tactic(auto, using(crate::proofs::Cutting::next_field))]
    fn next(&mut self) -> Option<&'a [u8]> {
        let (field, rest) = cut(self.rest?, b',');
        self.rest = rest;
        Some(field)
    }
}

// The number that a field writes, if it is at most `most`: digits without sign or leading zeros.
pub fn number(field: &[u8], most: u64) -> Option<u64>
    ensures { result ≡ number_in most field.now }
{
    match field {
        [] | [b'0', _, ..] => None,
        _ => digits(field, most),
    }
}

// The number that digits write, if it is at most `most`.
fn digits(field: &[u8], most: u64) -> Option<u64>
    ensures { result ≡ number_on most 0 field.now }
{
    field
        .iter()
        .try_fold(0, |n, digit| with_digit(n, *digit))
        .filter(|n| *n <= most)
}

// The number with one digit more; none where the byte is no digit, or 64 bits do not hold the number.
fn with_digit(n: u64, digit: u8) -> Option<u64>
    ensures { MatchOption result ((48 ≤ digit) × (digit ≤ 57) → 2 ^ 64 ≤ 10 * n + (digit - 48))
        (λ m. (48 ≤ digit) × (digit ≤ 57) × (m ≡ 10 * n + (digit - 48))) }
{
    match digit {
        b'0'..=b'9' => n.checked_mul(10)?.checked_add(u64::from(digit - b'0')),
        _ => None,
    }
}
