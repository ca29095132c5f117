//! The sixteen traps, and the number of each.

ghost use Rattle.std.specs.Prelude.{◌≡◌};
ghost use Rattle.ob_trap.specs.Numbers.{trap_number, trap_of, tells_number};

/// What ends a run before its end: the meaning of programs and the machine speak of the same traps. Each
/// has the number that a file of code has for it and that reports tell.
#[derive(Clone, Copy, Debug, PartialEq, Eq, Drop)]
pub enum Trap {
    /// 1: an index below 0, or not below the length.
    IndexOutside = 1,
    /// 2: a dereference of NIL, or a call of what is NIL or of a receiver that is NIL.
    Nil,
    /// 3: a guard whose test is FALSE.
    GuardFails,
    /// 4: CASE without a matching label and without ELSE.
    NoCase,
    /// 5: WITH without a match and without ELSE.
    NoMatch,
    /// 6: a function that reaches its end.
    NoReturn,
    /// 7: a divisor of 0 or less.
    NoDivisor,
    /// 8: a result outside its type.
    Overflow,
    /// 9: an element outside 0 to 31.
    NoElement,
    /// 10: an assertion that is FALSE. It tells a number of its own beside this one.
    AssertionFails,
    /// 11: HALT. It tells a number of its own beside this one.
    Halted,
    /// 12: an object for which the heap has no room.
    HeapFull,
    /// 13: a call for which the stack has no room.
    StackFull,
    /// 14: a record assigned to one of another dynamic type.
    OtherType,
    /// 15: a character array without 0X.
    NoEnd,
    /// 16: a length of NEW below 1.
    NoLength,
}

/// The traps by number, that of number 1 first.
pub const TRAPS: [Trap; 16] = [
    Trap::IndexOutside,
    Trap::Nil,
    Trap::GuardFails,
    Trap::NoCase,
    Trap::NoMatch,
    Trap::NoReturn,
    Trap::NoDivisor,
    Trap::Overflow,
    Trap::NoElement,
    Trap::AssertionFails,
    Trap::Halted,
    Trap::HeapFull,
    Trap::StackFull,
    Trap::OtherType,
    Trap::NoEnd,
    Trap::NoLength,
];

impl Trap {
    /// The number of the trap, from 1 to 16.
    pub fn number(self) -> u8
        ensures { result ≡ trap_number self }
    {
        self as u8
    }

    /// Whether the trap tells a number of its own beside this one.
    pub fn tells_number(self) -> bool
        ensures { result ≡ tells_number self }
    {
        matches!(self, Trap::AssertionFails | Trap::Halted)
    }

    /// The trap of a number. `None` exactly where the number is not from 1 to 16.
    pub fn of_number(number: i32) -> Option<Trap>
        ensures { result ≡ trap_of number }
    {
        if number < 1 {
            return None;
        }
        if number > 16 {
            return None;
        }
        Some(TRAPS[number as usize - 1])
    }
}
