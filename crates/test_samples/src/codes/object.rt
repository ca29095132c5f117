//! The module of the small codes.

use ob_instr::Param;
use std::alloc::Global;
use test_codes::{Misspelt, Module, Procedure, RecordType, assemble};

const TYPES: [RecordType; 2] = [
    RecordType {
        name: "T",
        base: None,
        words: 2,
        bound: 1,
        number: 0,
        procedure: 6,
    },
    RecordType {
        name: "U",
        base: Some(0),
        words: 3,
        bound: 3,
        number: 1,
        procedure: 7,
    },
];

// The procedures 1 to 14. 1 gives twice its argument; 2 writes its local and then sets it; 3 doubles the
// first word of its parameter, two words by value, and writes it; 4 writes the length of its open array by
// value; 5 calls itself; 6 writes the tag of its record receiver; 7 writes the first word of its pointer
// receiver's object; 8 is to have a result and ends without one; 9 gives 7; 10 is to have a result and has
// none to give; 11 sets its variable parameter; 12 writes the length of its open array, a variable
// parameter, and sets the first word; 13 writes the last of as many locals as the stack has words, and
// calls 9, which needs no words, and 2, which needs one; 14 writes the first variable, and nothing stands
// behind it.
const PROCEDURES: [Procedure; 14] = [
    Procedure {
        code: "Local 0; Load; Int 2; Mul 4; RetV",
        param: Some(Param::Scalar),
        locals: 0,
        has_result: true,
    },
    Procedure {
        code: "Local 0; Load; p; Local 0; Int 5; Store; Ret",
        param: None,
        locals: 1,
        has_result: false,
    },
    Procedure {
        code: "Local 0; Load; Local 0; Load; Load; Int 2; Mul 4; Store; Local 0; Load; Load; p; Ret",
        param: Some(Param::Value(2)),
        locals: 0,
        has_result: false,
    },
    Procedure {
        code: "Local 1; Load; p; Ret",
        param: Some(Param::ValueArray(1)),
        locals: 0,
        has_result: false,
    },
    Procedure {
        code: "Call 5; Ret",
        param: None,
        locals: 0,
        has_result: false,
    },
    Procedure {
        code: "Local 1; Load; p; Ret",
        param: Some(Param::VarRecord),
        locals: 0,
        has_result: false,
    },
    Procedure {
        code: "Local 0; Load; Load; p; Ret",
        param: Some(Param::Scalar),
        locals: 0,
        has_result: false,
    },
    Procedure {
        code: "Ret",
        param: None,
        locals: 0,
        has_result: true,
    },
    Procedure {
        code: "Int 7; RetV",
        param: None,
        locals: 0,
        has_result: true,
    },
    Procedure {
        code: "RetV",
        param: None,
        locals: 0,
        has_result: true,
    },
    Procedure {
        code: "Local 0; Load; Int 9; Store; Ret",
        param: Some(Param::Var),
        locals: 0,
        has_result: false,
    },
    Procedure {
        code: "Local 1; Load; p; Local 0; Load; Int 9; Store; Ret",
        param: Some(Param::VarArray),
        locals: 0,
        has_result: false,
    },
    Procedure {
        code: "Local 1048575; Load; p; Call 9; p; Call 2; Ret",
        param: None,
        locals: 1_048_576,
        has_result: false,
    },
    Procedure {
        code: "Global 0; Load; p",
        param: None,
        locals: 0,
        has_result: false,
    },
];

/// The bytes of an object file of a module whose body is the code. It has ten words of variables, the
/// strings AB and AC in three words each, the record type T of two words, whose bound procedure 0 is the
/// procedure 6, and U, which extends T, of three words, whose bound procedure 1 is the procedure 7, and
/// whose number 2 has none.
pub fn object_file(alloc: Global, body: &str) -> Result<Vec<u8>, Misspelt> {
    let module = Module {
        body,
        words: 10,
        strings: &["AB", "AC"],
        types: &TYPES,
        procedures: &PROCEDURES,
    };
    assemble(alloc, &module)
}
