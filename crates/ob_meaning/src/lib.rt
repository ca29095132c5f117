//! What programs do: types, values, expressions, statements, calls and commands, over checked
//! trees. There are definitions, and laws above them; there is no code.
#![tactic(auto)]

ghost use Rattle.ob_meaning.specs.Laws.{ExpressionsGoOn, StatementsGoOn, CommandsSpend, CommandsLoad, CommandsLeaveNoCalls};

/// The law of expressions: whatever the program, the tree and the state, evaluating an
/// expression never raises the turns that are left, and what was written before stands in front
/// of what is written after, also where it stops by a trap or by spent turns. Where it does not
/// stop, the active calls are those of before.
pub fn expressions_go_on()
    ensures { ExpressionsGoOn }
{}

/// The law of statements, likewise.
pub fn statements_go_on()
    ensures { StatementsGoOn }
{}

/// The law of commands: bodies and the command's procedure spend of the turns that the command
/// was given, and what is left is never more.
pub fn commands_spend()
    ensures { CommandsSpend }
{}

/// The law of loading: when a command has ended, what was loaded before is loaded still, followed by
/// the first of the modules that the command brought in, in their order. Where no stop came, all of
/// them are.
pub fn commands_load()
    ensures { CommandsLoad }
{}

/// The law of ends: each body that a command runs, and its procedure, begins with no active call;
/// where it comes to its end, its own call is the only active one, and the end of that leaves none.
/// What a command leaves has no active calls, also after a stop: what is loaded holds none.
pub fn commands_leave_no_calls()
    ensures { CommandsLeaveNoCalls }
{}
