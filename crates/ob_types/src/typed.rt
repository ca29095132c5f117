//! Checked trees: a module in which each name is resolved, each expression has its type, and
//! constants are folded.
//!
//! They have no place, number or width in words. What a type is, is asked by its name.
//!
//! Where a record type is named that declares a field, is guarded or tested for, is a base, or that
//! a procedure is bound to, it is named by its own name and by none that is equated to it. The types
//! `of` designators and parameters are named as the text has them.

use crate::desc::{Desc, Receiver};
use crate::types::{Basic, Signature, TypeRef};
use crate::value::Value;
use ob_tree::{Boxed, CompactName, List, Mark, Name, ObjName, Pos, QName};

/// An integer type, as that in which an operation computes.
#[derive(Clone, Copy, PartialEq, Eq)]
pub enum Width {
    /// -128 to 127.
    ShortInt,
    /// -32768 to 32767.
    Integer,
    /// -2147483648 to 2147483647.
    LongInt,
}

/// How a parameter is passed.
#[derive(Clone, Copy, PartialEq, Eq)]
pub enum Passing {
    /// By value, of a type that is neither array nor record. A receiver that is a pointer is
    /// passed so.
    Scalar,
    /// By value, a record or an array of a fixed length.
    Structure,
    /// By value, an open array.
    OpenArray,
    /// By VAR, of any type but those of the next two.
    Variable,
    /// By VAR, a record. A receiver that is a record is passed so.
    VariableRecord,
    /// By VAR, an open array.
    VariableOpenArray,
}

/// A variable where it is named.
pub enum Variable {
    /// A variable of a module, of the module at hand too.
    Module {
        module: CompactName,
        name: CompactName,
    },
    /// A local variable of the procedure at hand.
    Local(CompactName),
    /// A parameter of the procedure at hand.
    Parameter(Passing, CompactName),
}

// By hand, as that of `TypeRef`; and where it says so below.
impl Drop for Variable {
    fn drop(self) {
        match self {
            Variable::Module { module: _, name: _ } => {}
            Variable::Local(_) => {}
            Variable::Parameter(_, _) => {}
        }
    }
}

/// What a guard stands on.
#[derive(Clone, Copy, PartialEq, Eq)]
pub enum Guarded {
    /// A variable of a pointer type.
    Pointer,
    /// A parameter by VAR of a record type, itself perhaps guarded.
    Record,
}

/// A relation between values that have an order, or are compared for equality.
#[derive(Clone, Copy, PartialEq, Eq)]
pub enum Comparison {
    Equal,
    NotEqual,
    Less,
    LessEqual,
    Greater,
    GreaterEqual,
}

/// What a comparison compares. All but `Integer` and `Char` know `Equal` and `NotEqual` alone.
#[derive(Clone, Copy, PartialEq, Eq)]
pub enum Compared {
    Integer,
    Char,
    Boolean,
    Set,
    /// Two pointers, or a pointer and NIL.
    Pointer,
    /// Two procedure values, or one and NIL.
    Procedure,
}

/// An operation on one value. The sign `+` and round brackets leave no node.
#[derive(Clone, Copy, PartialEq, Eq)]
pub enum Unary {
    /// `-` of an integer; outside the type it traps.
    Negate(Width),
    /// `~`
    Not,
    /// `-` of a set.
    Complement,
    /// ABS; outside the type it traps.
    Abs(Width),
    /// CAP
    Cap,
    /// CHR; outside 0 to 255 it traps.
    Chr,
    /// LONG, to this type.
    Long(Width),
    /// ODD
    Odd,
    /// ORD
    Ord,
    /// SHORT, to this type; outside it, it traps.
    Short(Width),
    /// `{i}`; outside 0 to 31 it traps.
    Element,
}

/// An operation on two values, both of which are computed. A set that is no constant is the
/// union of what stands before, at first the empty set, with each of its elements in turn; each
/// such union has the position of its element.
#[derive(Clone, Copy, PartialEq, Eq)]
pub enum Binary {
    /// `+` of integers; outside the type it traps.
    Add(Width),
    /// `-` of integers; outside the type it traps.
    Subtract(Width),
    /// `*` of integers; outside the type it traps.
    Multiply(Width),
    /// `DIV`; a divisor of 0 or less traps.
    Quotient(Width),
    /// `MOD`; a divisor of 0 or less traps.
    Remainder(Width),
    /// `+` of sets.
    Union,
    /// `-` of sets.
    Difference,
    /// `*` of sets.
    Intersection,
    /// `/` of sets.
    SymmetricDifference,
    /// `{i .. j}`; a bound outside 0 to 31 traps.
    Range,
    /// `i IN s`; an element outside 0 to 31 traps.
    In,
    /// ASH, in LONGINT; outside it, it traps.
    Ash,
    /// A relation, but of strings and character arrays.
    Compare(Comparison, Compared),
}

/// `&` or `OR`, which leave out their right operand where the left one decides.
#[derive(Clone, Copy, PartialEq, Eq)]
pub enum Connective {
    And,
    Or,
}

/// A procedure of the built-in module Out.
#[derive(Clone, Copy, PartialEq, Eq)]
pub enum OutProcedure {
    Char,
    /// Its parameter is an open array by value.
    Str,
    Int,
    Ln,
}

/// A bound procedure with all its redefinitions: the record type that introduces it, and its
/// name.
#[derive(Drop)]
pub struct Family {
    pub owner: QName,
    pub name: CompactName,
}

/// What a call names, but a procedure variable.
pub enum Callee {
    /// A declared procedure, by its module and its name there: `P`, or `P/Q` for one inside P.
    Declared(QName),
    /// The procedure that is bound to the dynamic type of the receiver. The receiver is the
    /// first actual parameter, and `receiver` says what it is.
    Bound {
        family: Family,
        receiver: Receiver,
    },
    /// A super call: the procedure that is bound to the record type `base`, which is the base
    /// of the receiver's declared type. The receiver is the first actual parameter.
    Super {
        base: QName,
        family: Family,
        receiver: Receiver,
    },
    /// A procedure of Out.
    Out(OutProcedure),
}

// By hand.
impl Drop for Callee {
    fn drop(self) {
        match self {
            Callee::Declared(_) => {}
            Callee::Bound {
                family: _,
                receiver: _,
            } => {}
            Callee::Super {
                base: _,
                family: _,
                receiver: _,
            } => {}
            Callee::Out(_) => {}
        }
    }
}

/// A designator of a variable, with the type that each of its prefixes has.
#[cycle(typed)]
#[derive(Drop)]
pub enum Designator {
    Variable {
        variable: Variable,
        of: TypeRef,
    },
    /// The field `name` that the record type `owner` declares: the type of the record itself,
    /// or a base of it, by its own name.
    Field {
        inner: Boxed<Designator>,
        owner: QName,
        name: CompactName,
        of: TypeRef,
    },
    /// An element, of an array of that length, or of an open array. A further index is an index
    /// of the element. `pos` is that of `[`, or of the comma.
    Index {
        inner: Boxed<Designator>,
        length: Option<u32>,
        index: Boxed<TypedExpr>,
        pos: Pos,
        of: TypeRef,
    },
    /// What a pointer points to. A dereference that is not written has the position of the
    /// selector behind it, or that of the call before a call's receiver.
    Deref {
        inner: Boxed<Designator>,
        pos: Pos,
        of: TypeRef,
    },
    /// The same variable, of which it is known that its dynamic type is the record type
    /// `target` or an extension of it. `of` is the type written: that record type, or the
    /// pointer type to it. A guard that WITH adds has the name's position, and the outermost
    /// WITH's guard stands innermost.
    Guard {
        inner: Boxed<Designator>,
        guarded: Guarded,
        target: QName,
        pos: Pos,
        of: TypeRef,
    },
}

/// An expression. `pos` is that of the node, where a trap stands.
#[cycle(typed)]
#[derive(Drop)]
pub enum TypedExpr {
    /// A constant, of the smallest type that has it. A string stands only where an array is
    /// wanted; one of a single character that serves as an array is a `Str`.
    Constant(Value),
    /// The value of a scalar variable, or the place of a structured one.
    Designator(Designator),
    /// A procedure of module level as a value.
    Procedure {
        name: QName,
        signature: Signature,
    },
    Unary {
        op: Unary,
        operand: Boxed<TypedExpr>,
        pos: Pos,
    },
    Binary {
        op: Binary,
        left: Boxed<TypedExpr>,
        right: Boxed<TypedExpr>,
        pos: Pos,
    },
    Logical {
        connective: Connective,
        left: Boxed<TypedExpr>,
        right: Boxed<TypedExpr>,
    },
    /// A relation of two operands that are character arrays or strings.
    CompareTexts {
        comparison: Comparison,
        left: Boxed<TypedExpr>,
        right: Boxed<TypedExpr>,
        pos: Pos,
    },
    /// `IS` on a pointer: whether it points to a record of that type or an extension.
    IsPointer {
        operand: Boxed<TypedExpr>,
        target: QName,
    },
    /// `IS` on a parameter by VAR of a record type, perhaps guarded.
    IsRecord {
        inner: Designator,
        target: QName,
    },
    /// LEN of an open array in its first dimension. Every other LEN is a constant.
    Length(Designator),
    /// A call, with what its result is. `pos` is that of the designator's first symbol.
    Call {
        callee: Callee,
        actuals: List<Actual>,
        pos: Pos,
        result: Option<TypeRef>,
    },
    /// A call of the procedure that a variable holds.
    CallVariable {
        inner: Designator,
        actuals: List<Actual>,
        pos: Pos,
        result: Option<TypeRef>,
    },
}

/// An actual parameter: how it is passed, the type of the formal parameter, and the value or
/// the variable. Where it is passed by VAR, `value` is a `Designator`.
///
/// A receiver has no formal parameter here: of a pointer, `formal` is the pointer's own type, and
/// of a record the record type that the call is selected of. That of `Out.String` is an open array
/// of CHAR which no module declares, by the name `String(1` of Out.
#[cycle(typed)]
#[derive(Drop)]
pub struct Actual {
    pub passing: Passing,
    pub formal: TypeRef,
    pub value: TypedExpr,
}

/// What kind of value an assignment assigns.
#[derive(Drop)]
pub enum Assigned {
    /// A value of a type that is neither array nor record.
    Scalar,
    /// A string, to an array of characters that is longer.
    Text,
    /// An array, of the type of the target.
    Array,
    /// A record, to a variable whose type is this record type. Its value is of the type or of an
    /// extension.
    Record(QName),
}

/// INC, DEC, INCL or EXCL. INC and DEC without a second parameter have the constant 1.
#[derive(Clone, Copy, PartialEq, Eq)]
pub enum Update {
    /// INC; outside the variable's type it traps.
    Inc(Width),
    /// DEC; outside the variable's type it traps.
    Dec(Width),
    /// INCL; outside 0 to 31 it traps.
    Incl,
    /// EXCL; outside 0 to 31 it traps.
    Excl,
}

/// What NEW makes, but an open array.
#[derive(Drop)]
pub enum Made {
    /// A record of this type.
    Record(QName),
    /// An array of this type, which has a fixed length.
    Array(TypeRef),
}

/// A label of CASE: all values from `low` to `high`. A character stands for its number.
#[derive(Clone, Copy)]
pub struct Label {
    pub low: i32,
    pub high: i32,
}

/// A statement. `pos` is that of the node, where a trap or spent turns stand.
#[cycle(typed_stmt)]
#[derive(Drop)]
pub enum TypedStmt {
    Assign {
        target: Designator,
        assigned: Assigned,
        value: TypedExpr,
        pos: Pos,
    },
    /// A call of a proper procedure: `Call` or `CallVariable`.
    Call(TypedExpr),
    Update {
        op: Update,
        target: Designator,
        operand: TypedExpr,
        pos: Pos,
    },
    /// COPY
    Copy {
        source: TypedExpr,
        target: Designator,
        pos: Pos,
    },
    /// NEW of a record or of an array of a fixed length.
    New {
        target: Designator,
        made: Made,
        pos: Pos,
    },
    /// NEW of an open array with elements of that type.
    NewOpenArray {
        target: Designator,
        element: TypeRef,
        length: TypedExpr,
        pos: Pos,
    },
    /// ASSERT. The number is 0 where there is none.
    Assert {
        condition: TypedExpr,
        number: i32,
        pos: Pos,
    },
    /// HALT
    Halt {
        number: i32,
        pos: Pos,
    },
    /// The branches of IF and of each ELSIF. Without ELSE, `otherwise` is empty.
    If {
        branches: List<TypedBranch>,
        otherwise: List<TypedStmt>,
    },
    Case {
        value: TypedExpr,
        cases: List<TypedCase>,
        otherwise: Option<List<TypedStmt>>,
        pos: Pos,
    },
    While {
        test: TypedExpr,
        body: List<TypedStmt>,
        pos: Pos,
    },
    Repeat {
        body: List<TypedStmt>,
        test: TypedExpr,
        pos: Pos,
    },
    /// FOR over a variable of that integer type. The step is not 0.
    For {
        variable: Variable,
        width: Width,
        start: TypedExpr,
        end: TypedExpr,
        step: i32,
        body: List<TypedStmt>,
        pos: Pos,
    },
    Loop {
        body: List<TypedStmt>,
        pos: Pos,
    },
    /// Leaves the innermost LOOP around it.
    Exit,
    Return(Option<TypedExpr>),
    /// The branches of WITH: each guard as a test, and what is done where it holds, with the
    /// guards added to the guarded names.
    With {
        branches: List<TypedBranch>,
        otherwise: Option<List<TypedStmt>>,
        pos: Pos,
    },
}

/// A condition, and what is done where it holds.
#[cycle(typed_stmt)]
#[derive(Drop)]
pub struct TypedBranch {
    pub test: TypedExpr,
    pub body: List<TypedStmt>,
}

/// Labels, and what is done for them.
#[cycle(typed_stmt)]
#[derive(Drop)]
pub struct TypedCase {
    pub labels: List<Label>,
    pub body: List<TypedStmt>,
}

/// A declared constant.
#[derive(Drop)]
pub struct TypedConstant {
    pub name: Name,
    pub mark: Mark,
    pub value: Value,
}

/// A declared type, or one without a name of its own under its derived name: its name in the
/// module, and what it is. A record's fields and bound procedures are all there, in the order of
/// the text and with places, numbers and words 0, until the module is laid out.
pub struct TypedType {
    pub name: ObjName,
    pub desc: Desc,
}

// By hand, as that of `TypeRef`.
impl Drop for TypedType {
    fn drop(self) {
        let TypedType { name, desc } = self;
    }
}

/// A declared variable. The mark of a local one is `Hidden`.
#[derive(Drop)]
pub struct TypedVariable {
    pub name: Name,
    pub mark: Mark,
    pub of: TypeRef,
}

/// A formal parameter.
#[derive(Drop)]
pub struct TypedParameter {
    pub name: Name,
    pub passing: Passing,
    pub of: TypeRef,
}

/// What a bound procedure is bound to: the record type, the kind of receiver, and the family
/// that it begins or redefines.
#[derive(Drop)]
pub struct Binding {
    pub owner: QName,
    pub receiver: Receiver,
    pub family: Family,
}

/// A procedure: `name` is its name in the module, `P`, `P/Q` for one inside P, and `T.P` for one
/// bound to the record T. `pos` is that of its name in its heading, where a function without
/// RETURN traps. A receiver is the first parameter.
#[derive(Drop)]
pub struct TypedProcedure {
    pub name: ObjName,
    pub mark: Mark,
    pub pos: Pos,
    pub binding: Option<Binding>,
    pub parameters: List<TypedParameter>,
    pub result: Option<TypeRef>,
    pub locals: List<TypedVariable>,
    pub body: List<TypedStmt>,
}

/// What the text of a module names, where constants, lengths and tests have left nothing of it in
/// the tree: each object of another module that the text names anywhere, in the order of the
/// text, doubles too; the types that MAX and MIN name; and the designators of each LEN that is a
/// constant, which are not evaluated.
#[derive(Drop)]
pub struct Mentioned {
    pub objects: List<QName>,
    pub types: List<TypeRef>,
    pub lengths: List<Designator>,
}

/// A checked module. `imports` are the imported modules in the order of the text, each once,
/// without Out. The types are in the order in which they begin in the text, those of procedures
/// too, an inner array behind the one that it is the element of; the procedures in the order of
/// their names in the text, inner ones too.
#[derive(Drop)]
pub struct TypedModule {
    pub name: Name,
    pub imports: List<Name>,
    pub constants: List<TypedConstant>,
    pub types: List<TypedType>,
    pub variables: List<TypedVariable>,
    pub procedures: List<TypedProcedure>,
    pub body: List<TypedStmt>,
    pub mentioned: Mentioned,
}

/// The type of an expression.
pub enum ExprType {
    Of(TypeRef),
    /// A string that is no character.
    Str,
    Nil,
    /// A procedure that is named as a value.
    Procedure(Signature),
    /// A call without a result.
    Nothing,
}

// By hand, as that of `TypeRef`.
impl Drop for ExprType {
    fn drop(self) {
        match self {
            ExprType::Of(_) => {}
            ExprType::Str => {}
            ExprType::Nil => {}
            ExprType::Procedure(_) => {}
            ExprType::Nothing => {}
        }
    }
}
