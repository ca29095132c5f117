//! Arithmetic on words.

ghost use Rattle.std.specs.Prelude.{◌≡◌, ℤ, ◌<◌, ◌≤◌, ◌^◌, ◌≤ℤ◌, negsuc, ◌+ℤ◌, ◌-ℤ◌, ◌*ℤ◌, neg_ℤ, pos, if◌then◌else◌, Some, None};
ghost use Rattle.ob_instr.specs.Rows.{Effect, on_width, in_width, is_within, is_zero, magnitude, shifted, capital};
ghost use Rattle.ob_machine_operands.specs.Effects.{holds_of, on_fit};

/// How two words are compared.
#[derive(Clone, Copy, PartialEq, Eq, Drop)]
pub enum Comparison {
    /// `=`
    Equal,
    /// `#`
    Unequal,
    /// `<`
    Less,
    /// `<=`
    LessOrEqual,
    /// `>`
    Greater,
    /// `>=`
    GreaterOrEqual,
}

/// A number in the integer type of so many bytes.
#[derive(Clone, Copy, PartialEq, Eq, Drop)]
pub enum Fit {
    /// There is no such type.
    Without,
    /// The number is outside its range.
    Outside,
    /// The number as a word.
    Inside(i32),
}

impl Comparison {
    /// Whether the comparison holds of two words.
    pub fn holds(self, x: i32, y: i32) -> bool
        ensures { result ≡ holds_of self x y }
    {
        match self {
            Comparison::Equal => x == y,
            Comparison::Unequal => x != y,
            Comparison::Less => x < y,
            Comparison::LessOrEqual => x <= y,
            Comparison::Greater => x > y,
            Comparison::GreaterOrEqual => x >= y,
        }
    }
}

/// The number as a word, where it is one.
pub fn word_of(number: i64) -> Option<i32>
    ensures { result ≡ (if in_width 4 number then Some number else None) }
{
    if -2147483648 <= number && number <= 2147483647 {
        Some(number as i32)
    } else {
        None
    }
}

fn fit_one(number: i64) -> Fit
    ensures { result ≡ (if in_width 1 number then Fit.Inside number else Fit.Outside) }
{
    if -128 <= number && number <= 127 {
        Fit::Inside(number as i32)
    } else {
        Fit::Outside
    }
}

fn fit_two(number: i64) -> Fit
    ensures { result ≡ (if in_width 2 number then Fit.Inside number else Fit.Outside) }
{
    if -32768 <= number && number <= 32767 {
        Fit::Inside(number as i32)
    } else {
        Fit::Outside
    }
}

fn fit_four(number: i64) -> Fit
    ensures { result ≡ (if in_width 4 number then Fit.Inside number else Fit.Outside) }
{
    match word_of(number) {
        Some(word) => Fit::Inside(word),
        None => Fit::Outside,
    }
}

/// The number in the integer type of so many bytes, of which there are three: of 1, 2 and 4.
#[inline(always)]
pub fn fitted(bytes: i32, number: i64) -> Fit
    ensures { (k : ℤ → Effect) → (e : Effect) → on_width bytes (λ n. if in_width n number then k number else e) ≡ on_fit result k e }
{
    match bytes {
        1 => fit_one(number),
        2 => fit_two(number),
        4 => fit_four(number),
        _ => Fit::Without,
    }
}

/// Whether a number is from 0 up to a bound.
pub fn is_within(number: i32, bound: i32) -> bool
    ensures { result ≡ is_within number bound }
{
    0 <= number && number < bound
}

/// The sum of two words.
pub fn sum(x: i32, y: i32) -> i64
    ensures { result ≡ x +ℤ y }
{
    i64::from(x) + i64::from(y)
}

/// The difference of two words.
pub fn difference(x: i32, y: i32) -> i64
    ensures { result ≡ x -ℤ y }
{
    i64::from(x) - i64::from(y)
}

/// A word with the other sign.
pub fn negated(word: i32) -> i64
    ensures { result ≡ neg_ℤ word }
{
    -i64::from(word)
}

/// A power of 2, with an exponent of at most 32.
pub fn power(exponent: u32) -> u64
    requires { exponent ≤ 32 }
    ensures { result ≡ 2 ^ exponent }
{
    1 << exponent
}

/// The product of two words.
pub fn product(x: i32, y: i32) -> i64
    ensures product { result ≡ x *ℤ y }
    ensures least { negsuc (2 ^ 62) ≤ℤ result }
    ensures most { result ≤ℤ pos (2 ^ 62) }
{
    i64::from(x) * i64::from(y)
}

/// The address of an element, of so many words each, by its index.
pub fn element_at(first: i32, index: i32, size: i32) -> i64
    ensures { result ≡ first +ℤ (index *ℤ size) }
{
    i64::from(first) + product(index, size)
}

/// A letter from a to z as one from A to Z, any other word as it is.
pub fn capital(word: i32) -> i32
    ensures { result ≡ capital word }
{
    if 97 <= word && word <= 122 {
        word - 32
    } else {
        word
    }
}
