//! Values that have exactly one spelling as bytes, and the numbers and texts among them.

ghost use Rattle.std.specs.Prelude.{◌≡◌, ◌++◌, ◌∷◌, [], ◌^◌, ◌<◌, OnOk, IfOk, not, length};
ghost use Rattle.std.specs.Int.{w16, w32};
ghost use Rattle.ob_format.specs.Format.{Format, IsExact, Adds, Gives, Finds, word16, word32, text32, list_of, optional, items_at, whole, byte, int, skip_at, rising, few, fixed_at};
ghost use Rattle.ob_format.specs.Exact.{word32_exact, list_exact, optional_exact, byte_exact, int_exact};
ghost use Rattle.ob_format.specs.Order.{rises, differ};
ghost use Rattle.std.specs.List.{list_all};
ghost use Rattle.std.specs.Result.{IfErr};
ghost use Rattle.std.specs.Ordering.{is_eq};
ghost use Rattle.std.specs.declared.cmp.Ordering.{Ordering};

use crate::fault::Fault;
use ob_tree::{List, Text};
use std::alloc::{AllocError, Global};
use std::cmp::Ordering;

/// A value with exactly one spelling as bytes.
pub trait Wire: Drop {
    /// Its format: the grammar that a reader of a file's definition reads.
    ghost form: { Format Self };

    /// Takes a value from the front of the bytes, and gives what follows it.
    ///
    /// `Damaged` comes exactly where no value of the format stands at the front, `Memory` only
    /// where memory is wanting. No count in the bytes is trusted for an allocation, and what
    /// follows is not copied.
    fn read(alloc: Global, bytes: &[u8]) -> Result<(Self, &[u8]), Fault>
        ensures { Gives (λ x. (x.0, x.1.now)) result (form.take bytes.now) };

    /// Adds the value's spelling at the end. After an error the end is not whole.
    fn write(&self, out: &mut Vec<u8>) -> Result<(), AllocError>
        requires { form.fits self.now }
        ensures { OnOk result (Adds out.old.items out.new.items (form.spell self.now)) };

    /// What is read was spelled so, and what is spelled is read again.
    ghost exact: { IsExact form };
}

/// Adds bytes at the end.
pub fn put_bytes(out: &mut Vec<u8>, bytes: &[u8]) -> Result<(), AllocError>
    ensures { OnOk result (Adds out.old.items out.new.items bytes.now) }
{
    out.extend_from_slice(bytes)?;
    Ok(())
}

/// The number of four bytes at the front, the high byte first, and what follows it; none where
/// there are fewer bytes.
#[tactic(auto, unfolding(crate::specs::Format::word32))]
pub fn u32_at(bytes: &[u8]) -> Option<(u32, &[u8])>
    ensures { Finds (λ x. (x.0, x.1.now)) result (word32.take bytes.now) }
{
    if bytes.len() < 4 {
        return None;
    }
    let (front, rest) = bytes.split_at(4);
    let number = u32::from_be_bytes([front[0], front[1], front[2], front[3]]);
    Some((number, rest))
}

/// The number of two bytes at the front, the high byte first, and what follows it; none where
/// there are fewer bytes.
#[tactic(auto, unfolding(crate::specs::Format::word16))]
pub fn u16_at(bytes: &[u8]) -> Option<(u16, &[u8])>
    ensures { Finds (λ x. (x.0, x.1.now)) result (word16.take bytes.now) }
{
    if bytes.len() < 2 {
        return None;
    }
    let (front, rest) = bytes.split_at(2);
    let number = u16::from_be_bytes([front[0], front[1]]);
    Some((number, rest))
}

/// The first `count` bytes, and what follows them; none where there are fewer.
#[tactic(auto, unfolding(crate::specs::Format::fixed_at))]
pub fn bytes_of(count: usize, bytes: &[u8]) -> Option<(&[u8], &[u8])>
    ensures { Finds (λ x. (x.0.now, x.1.now)) result (fixed_at count bytes.now) }
{
    if bytes.len() < count {
        return None;
    }
    Some(bytes.split_at(count))
}

/// The signed number of four bytes at the front, in two's complement, and what follows it; none
/// where there are fewer bytes.
#[tactic(auto, unfolding(crate::specs::Format::parsed_at, crate::specs::Format::int, crate::specs::Format::word32))]
pub fn i32_at(bytes: &[u8]) -> Option<(i32, &[u8])>
    ensures { Finds (λ x. (x.0, x.1.now)) result (int.take bytes.now) }
{
    let (number, rest) = u32_at(bytes)?;
    Some((number.cast_signed(), rest))
}

impl Wire for u32 {
    ghost form = { word32 };

    fn read(_alloc: Global, bytes: &[u8]) -> Result<(u32, &[u8]), Fault> {
        match u32_at(bytes) {
            Some(found) => Ok(found),
            None => Err(Fault::Damaged),
        }
    }

    #[tactic(auto, unfolding(crate::specs::Format::word32))]
    fn write(&self, out: &mut Vec<u8>) -> Result<(), AllocError> {
        put_bytes(out, &self.to_be_bytes())
    }

    ghost exact = { word32_exact };
}

impl Wire for u8 {
    ghost form = { byte };

    #[tactic(auto, unfolding(crate::specs::Format::byte, crate::specs::Format::byte_at))]
    fn read(_alloc: Global, bytes: &[u8]) -> Result<(u8, &[u8]), Fault> {
        match bytes {
            [] => Err(Fault::Damaged),
            [byte, rest @ ..] => Ok((*byte, rest)),
        }
    }

    #[tactic(auto, unfolding(crate::specs::Format::byte))]
    fn write(&self, out: &mut Vec<u8>) -> Result<(), AllocError> {
        put_bytes(out, &[*self])
    }

    ghost exact = { byte_exact };
}

impl Wire for i32 {
    ghost form = { int };

    fn read(_alloc: Global, bytes: &[u8]) -> Result<(i32, &[u8]), Fault> {
        match i32_at(bytes) {
            Some(found) => Ok(found),
            None => Err(Fault::Damaged),
        }
    }

    #[tactic(auto, unfolding(crate::specs::Format::int))]
    fn write(&self, out: &mut Vec<u8>) -> Result<(), AllocError> {
        put_bytes(out, &self.to_be_bytes())
    }

    ghost exact = { int_exact };
}

/// What follows the fixed bytes `front`; `Damaged` exactly where the bytes do not begin with them.
#[tactic(auto, unfolding(crate::specs::Format::skip_at))]
pub fn skip<'a>(front: &[u8], bytes: &'a [u8]) -> Result<&'a [u8], Fault>
    ensures found { Gives (λ x. x.now) result (skip_at front.now bytes.now) }
    // It takes no memory.
    ensures damaged { IfErr result (λ fault. fault ≡ Fault.Damaged) }
{
    let mut left = front;
    let mut rest = bytes;
    while let [wanted, more @ ..] = left {
        match rest {
            [found, after @ ..] if wanted == found => rest = after,
            _ => return Err(Fault::Damaged),
        }
        left = more;
    }
    Ok(rest)
}

/// The bytes behind their count of four bytes, not copied, and what follows them; none where the
/// bytes end before.
#[tactic(auto, unfolding(crate::specs::Format::text32, crate::specs::Format::word32, crate::specs::Format::text_at, crate::specs::Format::fixed_at))]
pub fn text_at(bytes: &[u8]) -> Option<(&[u8], &[u8])>
    ensures { Finds (λ x. (x.0.now, x.1.now)) result (text32.take bytes.now) }
{
    let (len, rest) = u32_at(bytes)?;
    bytes_of(len as usize, rest)
}

/// Reads a text: a count of four bytes, and that many bytes.
pub fn read_text(alloc: Global, bytes: &[u8]) -> Result<(Text, &[u8]), Fault>
    ensures { Gives (λ x. (x.0, x.1.now)) result (text32.take bytes.now) }
{
    match text_at(bytes) {
        Some((text, rest)) => Ok((Text::from_slice(alloc, text)?, rest)),
        None => Err(Fault::Damaged),
    }
}

/// Adds a text at the end: a count of four bytes, and its bytes.
#[tactic(auto, unfolding(crate::specs::Format::text32))]
pub fn write_text(text: &[u8], out: &mut Vec<u8>) -> Result<(), AllocError>
    requires { length text.now < 2 ^ 32 }
    ensures { OnOk result (Adds out.old.items out.new.items (text32.spell text.now)) }
{
    out.extend_from_slice(&(text.len() as u32).to_be_bytes())?;
    out.extend_from_slice(text)?;
    Ok(())
}

/// Values with an order.
pub trait Ranked {
    ghost rank: { Self → Self → Ordering };

    /// How this value stands to the other.
    fn compare(&self, other: &Self) -> Ordering
        ensures { result ≡ rank self.now other.now };
}

/// Whether each item is below the next.
pub fn is_rising<T: Ranked>(items: &[T]) -> bool
    ensures { result ≡ rises T.rank items.now }
{
    let mut rest = items;
    while let [first, second, ..] = rest {
        if first.compare(second) != Ordering::Less {
            return false;
        }
        rest = &rest[1..];
    }
    true
}

fn is_apart<T: Ranked>(item: &T, items: &[T]) -> bool
    ensures { result ≡ list_all (λ y. not (is_eq (T.rank item.now y))) items.now }
{
    let mut rest = items;
    while let [first, more @ ..] = rest {
        if item.compare(first) == Ordering::Equal {
            return false;
        }
        rest = more;
    }
    true
}

/// Whether no two items are equal. Each pair is looked at: for short lists.
pub fn is_distinct<T: Ranked>(items: &[T]) -> bool
    ensures { result ≡ differ T.rank items.now }
{
    let mut rest = items;
    while let [first, more @ ..] = rest {
        if !is_apart(first, more) {
            return false;
        }
        rest = more;
    }
    true
}

fn items<T: Wire>(alloc: Global, count: u32, bytes: &[u8]) -> Result<(List<T>, &[u8]), Fault>
    ensures { Gives (λ x. (x.0, x.1.now)) result (items_at T.form.take count bytes.now) }
{
    let mut items = List::new(alloc);
    let mut rest = bytes;
    for _ in 0..count {
        let (item, after) = T::read(alloc, rest)?;
        items.push(item)?;
        rest = after;
    }
    Ok((items, rest))
}

impl<T: Wire> Wire for List<T> {
    ghost form = { list_of T.form };

    #[tactic(auto, unfolding(crate::specs::Format::list_of, crate::specs::Format::word32, crate::specs::Format::list_at))]
    fn read(alloc: Global, bytes: &[u8]) -> Result<(List<T>, &[u8]), Fault> {
        let (count, rest) = u32::read(alloc, bytes)?;
        items::<T>(alloc, count, rest)
    }

    #[tactic(auto, unfolding(crate::specs::Format::list_of))]
    fn write(&self, out: &mut Vec<u8>) -> Result<(), AllocError> {
        let items = self.as_slice();
        out.extend_from_slice(&(items.len() as u32).to_be_bytes())?;
        for item in items {
            item.write(out)?;
        }
        Ok(())
    }

    ghost exact = { list_exact T.exact };
}

impl<T: Wire> Wire for Option<T> {
    ghost form = { optional T.form };

    #[tactic(auto, unfolding(crate::specs::Format::optional, crate::specs::Format::optional_at))]
    fn read(alloc: Global, bytes: &[u8]) -> Result<(Option<T>, &[u8]), Fault> {
        match bytes {
            [] => Err(Fault::Damaged),
            [0, rest @ ..] => Ok((None, rest)),
            [1, rest @ ..] => {
                let (value, rest) = T::read(alloc, rest)?;
                Ok((Some(value), rest))
            }
            [_, ..] => Err(Fault::Damaged),
        }
    }

    #[tactic(auto, unfolding(crate::specs::Format::optional))]
    fn write(&self, out: &mut Vec<u8>) -> Result<(), AllocError> {
        match self {
            None => out.push(0)?,
            Some(value) => {
                out.push(1)?;
                value.write(out)?;
            }
        }
        Ok(())
    }

    ghost exact = { optional_exact T.exact };
}

/// Reads a list whose items rise strictly: `Damaged` also where an item is not below the next.
#[tactic(auto, unfolding(crate::specs::Format::such_that_at))]
pub fn rising_list<T: Wire + Ranked>(alloc: Global, bytes: &[u8]) -> Result<(List<T>, &[u8]), Fault>
    ensures { Gives (λ x. (x.0, x.1.now)) result ((rising T.form T.rank).take bytes.now) }
{
    let (items, rest) = List::<T>::read(alloc, bytes)?;
    if !is_rising(items.as_slice()) {
        return Err(Fault::Damaged);
    }
    Ok((items, rest))
}

/// Reads a list of at most `limit` items, no two of them equal: `Damaged` also where there are
/// more, or two are equal.
#[tactic(auto, unfolding(crate::specs::Format::such_that_at))]
pub fn few_list<T: Wire + Ranked>(
    alloc: Global,
    limit: usize,
    bytes: &[u8],
) -> Result<(List<T>, &[u8]), Fault>
    ensures { Gives (λ x. (x.0, x.1.now)) result ((few limit T.form T.rank).take bytes.now) }
{
    let (items, rest) = List::<T>::read(alloc, bytes)?;
    if items.len() > limit || !is_distinct(items.as_slice()) {
        return Err(Fault::Damaged);
    }
    Ok((items, rest))
}

#[tactic(auto, unfolding(crate::specs::Format::whole))]
fn exactly<T: Wire>(alloc: Global, bytes: &[u8]) -> Result<T, Fault>
    ensures { Gives (λ x. x) result (whole T.form bytes.now) }
{
    let (value, rest) = T::read(alloc, bytes)?;
    if !rest.is_empty() {
        return Err(Fault::Damaged);
    }
    Ok(value)
}

/// The value that the bytes spell, all of the bytes.
///
/// `Damaged` exactly where they spell none.
pub fn read_whole<T: Wire>(alloc: Global, bytes: &[u8]) -> Result<T, Fault>
    // What is read is spelled so.
    ensures found { IfOk result (λ x. T.form.fits x × (bytes.now ≡ T.form.spell x)) }
    // What is spelled so is read, unless memory runs out.
    ensures only { (x : T) → T.form.fits x → bytes.now ≡ T.form.spell x → Gives (λ y. y) result (Some x) }
{
    exactly::<T>(alloc, bytes)
}

/// The one spelling of the value.
pub fn write_whole<T: Wire>(alloc: Global, value: &T) -> Result<Text, AllocError>
    requires { T.form.fits value.now }
    ensures { IfOk result (λ text. text ≡ T.form.spell value.now) }
{
    let mut out = Vec::new(alloc);
    value.write(&mut out)?;
    Text::from_slice(alloc, &out)
}
