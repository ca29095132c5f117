//! The rules, a broken rule and its place, and the names of the predeclared procedures.

ghost use Rattle.std.specs.Prelude.{◌≡◌};
ghost use Rattle.ob_rules.specs.Judged as spec;

use ob_tree::Pos;

/// A rule of the language, by what breaks it. There are no rules 16, 29 and 30.
#[derive(Clone, Copy, PartialEq, Eq)]
pub enum Rule {
    /// Rule 1. A name is declared twice in one scope; or a field or bound procedure has the name of
    /// one that is visible in a base.
    DeclaredTwice,
    /// Rule 2. A name is not declared, not yet declared, or not exported by its module.
    NotDeclared,
    /// Rule 3. A name of another kind stands there.
    WrongKind,
    /// Rule 4. The name after END is not that of its module or procedure.
    WrongClosingName,
    /// Rule 5. A module is called `Out` or `SYSTEM`, or imports `SYSTEM`.
    ReservedModule,
    /// Rule 6. An export mark inside a procedure; or `-` on what is neither a variable nor a field.
    MisplacedMark,
    /// Rule 7. `REAL`, `LONGREAL`, `ENTIER` or `SIZE`, which this language leaves out.
    LeftOut,
    /// Rule 8. A variable or parameter of an enclosing procedure.
    OuterVariable,
    /// Rule 9. An integer above 2147483647, or a character above 0FFX.
    LiteralTooLarge,
    /// Rule 10. An expression that has to be constant is not; or a declared constant is NIL.
    NotConstant,
    /// Rule 11. A constant leaves LONGINT, or would trap.
    ConstantOutOfRange,
    /// Rule 12. An array's length is no integer, or below 1.
    UnfitLength,
    /// Rule 13. An open array stands where none may.
    MisplacedOpenArray,
    /// Rule 14. A record's base is no record type.
    UnfitBase,
    /// Rule 15. A pointer points to what is neither a record nor an array.
    UnfitPointerBase,
    /// Rule 17. A procedure's result is a record or an array.
    StructuredResult,
    /// Rule 18. A forward declaration is without its procedure, or has other parameters.
    UnmatchedForward,
    /// Rule 19. A receiver is neither a VAR record nor a pointer to a record of this module, or its
    /// procedure stands inside another.
    UnfitReceiver,
    /// Rule 20. A redefinition has other parameters or another kind of receiver.
    UnmatchedRedefinition,
    /// Rule 21. Operands do not fit their operator.
    UnfitOperands,
    /// Rule 22. A selector does not fit what stands before it, or follows a call.
    UnfitSelector,
    /// Rule 23. A test or guard for a type that does not extend the static one, or on what is
    /// neither a pointer nor a VAR record parameter.
    UnfitTypeTest,
    /// Rule 24. A call has another number of parameters.
    WrongParameterCount,
    /// Rule 25. A parameter does not fit.
    UnfitParameter,
    /// Rule 26. What may only be read, a constant or a procedure is changed or passed as VAR.
    NotChangeable,
    /// Rule 27. A procedure without a result in an expression, or a function as a statement.
    MisplacedCall,
    /// Rule 28. The parameters of a predeclared procedure do not fit.
    UnfitPredeclaredParameters,
    /// Rule 31. A value is not assignable.
    NotAssignable,
    /// Rule 32. A condition is not BOOLEAN.
    NotBoolean,
    /// Rule 33. CASE over neither integers nor characters; or a label of the other kind or too
    /// wide, an empty range, or one value twice.
    UnfitCase,
    /// Rule 34. FOR over what is no integer variable, bounds that do not fit it, or a step that is
    /// no constant or 0.
    UnfitFor,
    /// Rule 35. EXIT outside a LOOP of its procedure.
    MisplacedExit,
    /// Rule 36. RETURN with a value in a proper procedure, without one in a function, or with one
    /// that does not fit.
    UnfitReturn,
    /// Rule 37. WITH on what is neither a pointer variable nor a VAR record parameter, or for a
    /// type that does not extend its own.
    UnfitWith,
    /// Rule 38. A designator that ends in a guard on a pointer is passed as VAR.
    GuardedVarParameter,
    /// Rule 39. A predeclared, bound or inner procedure, or one of `Out`, as a value.
    UnfitProcedureValue,
    /// Rule 40. `P^` on what is not the receiver of the procedure at hand, or where no base has P.
    UnfitSuperCall,
}

impl Rule {
    /// The number of the rule, from 1 to 40, by which it is told.
    pub fn number(self) -> u8
        ensures { result ≡ spec.number_of self }
    {
        match self {
            Rule::DeclaredTwice => 1,
            Rule::NotDeclared => 2,
            Rule::WrongKind => 3,
            Rule::WrongClosingName => 4,
            Rule::ReservedModule => 5,
            Rule::MisplacedMark => 6,
            Rule::LeftOut => 7,
            Rule::OuterVariable => 8,
            Rule::LiteralTooLarge => 9,
            Rule::NotConstant => 10,
            Rule::ConstantOutOfRange => 11,
            Rule::UnfitLength => 12,
            Rule::MisplacedOpenArray => 13,
            Rule::UnfitBase => 14,
            Rule::UnfitPointerBase => 15,
            Rule::StructuredResult => 17,
            Rule::UnmatchedForward => 18,
            Rule::UnfitReceiver => 19,
            Rule::UnmatchedRedefinition => 20,
            Rule::UnfitOperands => 21,
            Rule::UnfitSelector => 22,
            Rule::UnfitTypeTest => 23,
            Rule::WrongParameterCount => 24,
            Rule::UnfitParameter => 25,
            Rule::NotChangeable => 26,
            Rule::MisplacedCall => 27,
            Rule::UnfitPredeclaredParameters => 28,
            Rule::NotAssignable => 31,
            Rule::NotBoolean => 32,
            Rule::UnfitCase => 33,
            Rule::UnfitFor => 34,
            Rule::MisplacedExit => 35,
            Rule::UnfitReturn => 36,
            Rule::UnfitWith => 37,
            Rule::GuardedVarParameter => 38,
            Rule::UnfitProcedureValue => 39,
            Rule::UnfitSuperCall => 40,
        }
    }
}

/// A rule, and where it is broken.
#[derive(Clone, Copy, PartialEq, Eq)]
pub struct Broken {
    pub rule: Rule,
    pub pos: Pos,
}

/// A predeclared procedure.
#[derive(Clone, Copy, PartialEq, Eq)]
pub enum Predeclared {
    Abs,
    Ash,
    Cap,
    Chr,
    Len,
    Long,
    Max,
    Min,
    Odd,
    Ord,
    Short,
    Assert,
    Copy,
    Dec,
    Excl,
    Halt,
    Inc,
    Incl,
    New,
}

fn before(a: Broken, b: Broken) -> bool
    ensures { result ≡ spec.before a b }
{
    a.pos.line < b.pos.line
        || (a.pos.line == b.pos.line
            && (a.pos.col < b.pos.col
                || (a.pos.col == b.pos.col && a.rule.number() < b.rule.number())))
}

/// The earlier of two, by position and then by number.
pub fn earlier(a: Option<Broken>, b: Option<Broken>) -> Option<Broken>
    ensures { result ≡ spec.earlier a b }
{
    match (a, b) {
        (None, b) => b,
        (Some(a), None) => Some(a),
        (Some(a), Some(b)) => Some(if before(b, a) { b } else { a }),
    }
}
