//! The codes that are timed, as texts of instructions with the word `size` where the size stands, and what each needs of
//! a module: words, heap, procedures and record types.

use ob_instr::Param;
use std::alloc::{AllocError, Global};
use test_codes::{Procedure, RecordType};

const COUNT: &str = "Global 0; Int 0; Store; \
    Global 0; Load; Int size; Lt; JumpF 15; \
    Global 0; Global 0; Load; Int 1; Add 4; Store; Jump 3; \
    Global 0; Load; Int 0; Out 3; Out 4; Ret";

const CALLS: &str = "Int size; Call 1; Int 0; Out 3; Out 4; Ret";

// F, which begins at the instruction 6.
const RECURSIVE: [Procedure; 1] = [Procedure {
    code: "Local 0; Load; Int 2; Lt; JumpF 14; \
        Local 0; Load; RetV; \
        Local 0; Load; Int 1; Sub 4; Call 1; \
        Local 0; Load; Int 2; Sub 4; Call 1; \
        Add 4; RetV",
    param: Some(Param::Scalar),
    locals: 0,
    has_result: true,
}];

// The first four words are the count of primes, two indices and the count of sieves; the marks stand behind.
const SIEVE: &str = "Global 3; Int 0; Store; \
    Global 3; Load; Int 10; Lt; JumpF 94; \
    Global 0; Int 0; Store; \
    Global 1; Int 0; Store; \
    Global 1; Load; Int size; Lt; JumpF 32; \
    Global 4; Global 1; Load; Index size 1; Int 0; Store; \
    Global 1; Global 1; Load; Int 1; Add 4; Store; Jump 14; \
    Global 1; Int 2; Store; \
    Global 1; Load; Int size; Lt; JumpF 87; \
    Global 4; Global 1; Load; Index size 1; Load; Int 1; Lt; JumpF 80; \
    Global 0; Global 0; Load; Int 1; Add 4; Store; \
    Global 2; Global 1; Load; Global 1; Load; Add 4; Store; \
    Global 2; Load; Int size; Lt; JumpF 80; \
    Global 4; Global 2; Load; Index size 1; Int 1; Store; \
    Global 2; Global 2; Load; Global 1; Load; Add 4; Store; Jump 61; \
    Global 1; Global 1; Load; Int 1; Add 4; Store; Jump 35; \
    Global 3; Global 3; Load; Int 1; Add 4; Store; Jump 3; \
    Global 0; Load; Int 0; Out 3; Out 4; Ret";

// A record of the list has a value and a pointer to the next; one of the bound calls a value. Each has a bound procedure.
const NODE: [RecordType; 1] = [RecordType {
    name: "Node",
    base: None,
    words: 2,
    bound: 1,
    number: 0,
    procedure: 1,
}];

const COUNTER: [RecordType; 1] = [RecordType {
    name: "Counter",
    base: None,
    words: 1,
    bound: 1,
    number: 0,
    procedure: 1,
}];

// It adds 1 to the value of its receiver.
const STEP: [Procedure; 1] = [Procedure {
    code: "Local 0; Load; Deref; Local 0; Load; Deref; Load; Int 1; Add 4; Store; Ret",
    param: Some(Param::Scalar),
    locals: 0,
    has_result: false,
}];

// The words are the first record, an index, the sum and the new record.
const LIST: &str = "Global 0; Int 0; Store; \
    Global 1; Int 0; Store; \
    Global 1; Load; Int size; Lt; JumpF 37; \
    Global 3; NewR 0; \
    Global 3; Load; Deref; Global 1; Load; Store; \
    Global 3; Load; Deref; Offset 1; Global 0; Load; Store; \
    Global 0; Global 3; Load; Store; \
    Global 1; Global 1; Load; Int 1; Add 4; Store; Jump 6; \
    Global 2; Int 0; Store; \
    Global 0; Load; Int 0; Ne; JumpF 64; \
    Global 2; Global 2; Load; Global 0; Load; Deref; Load; Add 4; Int 1000003; Mod; Store; \
    Global 0; Global 0; Load; Deref; Offset 1; Load; Store; Jump 40; \
    Global 2; Load; Int 0; Out 3; Out 4; Ret";

// The words are the record and the count of calls.
const BOUND: &str = "Global 0; NewR 0; \
    Global 0; Load; Deref; Int 0; Store; \
    Global 1; Int 0; Store; \
    Global 1; Load; Int size; Lt; JumpF 25; \
    Global 0; Load; CallP 0 0; \
    Global 1; Global 1; Load; Int 1; Add 4; Store; Jump 10; \
    Global 0; Load; Deref; Load; Int 0; Out 3; Out 4; Ret";

/// The work that is timed from outside.
#[derive(Clone, Copy, Drop)]
pub enum Work {
    /// A loop that counts to the size.
    Count,
    /// F of the size, where F(n) is n below 2, and else F(n - 1) + F(n - 2).
    Calls,
    /// How many primes are below the size, by a sieve in an array, which is done ten times.
    Sieve,
    /// A list of so many records that is made and gone through: the sum of their values, 0 and up, modulo 1,000,003.
    List,
    /// So many calls of a bound procedure that adds 1: what they come to.
    Bound,
}

impl Work {
    pub fn named(name: &str) -> Option<Work> {
        match name {
            "count" => Some(Work::Count),
            "calls" => Some(Work::Calls),
            "sieve" => Some(Work::Sieve),
            "list" => Some(Work::List),
            "bound" => Some(Work::Bound),
            _ => None,
        }
    }

    /// The words of variables that the code of a size needs.
    pub fn words(self, size: u32) -> u32 {
        match self {
            Work::Sieve => size.saturating_add(4),
            Work::List => 4,
            Work::Bound => 2,
            _ => 1,
        }
    }

    /// The words of heap that the code of a size needs, and at least one.
    pub fn heap(self, size: u32) -> u32 {
        match self {
            // a word for the tag of each record
            Work::List => size.saturating_mul(3).saturating_add(1),
            Work::Bound => 2,
            _ => 1,
        }
    }

    // The code, with the word `size` for the size.
    fn pattern(self) -> &'static str {
        match self {
            Work::Count => COUNT,
            Work::Calls => CALLS,
            Work::Sieve => SIEVE,
            Work::List => LIST,
            Work::Bound => BOUND,
        }
    }

    /// The procedures that the code calls.
    pub fn procedures(self) -> &'static [Procedure] {
        match self {
            Work::Calls => &RECURSIVE,
            Work::List | Work::Bound => &STEP,
            _ => &[],
        }
    }

    /// The record types that the code makes records of.
    pub fn types(self) -> &'static [RecordType] {
        match self {
            Work::List => &NODE,
            Work::Bound => &COUNTER,
            _ => &[],
        }
    }

    /// The code of a size, of the module's body.
    pub fn body(self, alloc: Global, size: u32) -> Result<String, AllocError> {
        let digits = format!(in alloc; "{size}")?;
        self.pattern().replace(alloc, "size", &digits)
    }
}
