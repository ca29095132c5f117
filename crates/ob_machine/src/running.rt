//! A run from call to call.

ghost use Rattle.std.specs.Prelude.{◌≡◌, ◌≤◌, ◌<◌, ◌^◌, [], length, vec_len, vec_capacity, slice_get, true, None, Some, option_map};
ghost use Rattle.ob_instr.specs.Rows.{procedure_of};
ghost use Rattle.ob_instr.specs.Table.{position_at};
ghost use Rattle.ob_machine_image.specs.Room.{room};
ghost use Rattle.ob_machine_step.specs.Bases.{AreBelow};
ghost use Rattle.ob_machine_step.specs.Places.{is_call};
ghost use Rattle.ob_machine_fused.specs.Points.{IsHere};
ghost use Rattle.ob_machine.specs.Machine.{IsEntry};
ghost use Rattle.ob_machine.specs.Legs.{LegDoes, LegHasCause, CallDoes, CanRun, IsBegun, left_of, outcome_in};

use crate::Outcome;
use ob_instr::{Instr, Position};
use ob_io::Sink;
use ob_machine_calls::{Called, Calls, Place, call_or_return};
use ob_machine_fusion::Code;
use ob_machine_image::{Callable, Image, Module};
use ob_machine_loop::{Pause, go};
use ob_machine_operands::State;
use ob_trap::Trap;
use ob_tree::{Pos, ProcRef};

// The position of an instruction, where the list has it.
fn position_at(positions: &[Position], pc: u32) -> Pos
    ensures { result ≡ position_at positions.now pc }
{
    let mut rest = positions;
    while let [position, more @ ..] = rest {
        if position.at == pc {
            return position.pos;
        }
        rest = more;
    }
    Pos { line: 0, col: 0 }
}

// How the instructions of a module end. Indices are of its code.
#[derive(Clone, Copy, PartialEq, Eq, Drop)]
enum Ending {
    // the procedure that the run began in returned
    Done,
    // a trap of the instruction at an index, with the number that it tells beside its own
    Trap { kind: Trap, number: i32, at: u32 },
    // no turn was left for the instruction at an index
    TurnsSpent { at: u32 },
    // the instruction at an index cannot be executed, or there is none
    Illegal { at: u32 },
    // the sink failed: a front of the text was written
    SinkFault,
}

// The outcome that an end in a module is.
#[inline(never)]
fn outcome_in(unit: &Module, ending: Ending) -> Outcome
    ensures { result ≡ outcome_in unit.now ending }
{
    match ending {
        Ending::Done => Outcome::Done,
        Ending::Trap { kind, number, at } => Outcome::Trap {
            kind,
            number,
            module: unit.name,
            pos: position_at(unit.positions.as_slice(), at),
        },
        Ending::TurnsSpent { at } => Outcome::TurnsSpent {
            module: unit.name,
            pos: position_at(unit.positions.as_slice(), at),
        },
        Ending::Illegal { at } => Outcome::Illegal {
            module: unit.name,
            at,
        },
        Ending::SinkFault => Outcome::SinkFault,
    }
}

/// The module of a number that there is.
pub fn module_at(image: &Image, number: u32) -> &Module
    requires { number < length image.now.modules }
    ensures at { slice_get image.now.modules number ≡ Some result.now }
    ensures short { length result.now.code ≤ 262144 }
    ensures room { image.now.room ≡ room }
{
    let _ = image.count();
    let Some(unit) = image.module(number) else {
        unreachable!();
    };
    let _ = unit.code.len();
    unit
}

// What the instructions of a call read.
fn read_place<'a>(
    image: &'a Image,
    unit: &'a Module,
    number: u32,
    first: u32,
) -> ob_machine_step::Place<'a>
    requires at { slice_get image.now.modules number ≡ Some unit.now }
    requires room { image.now.room ≡ room }
    ensures here { IsHere result unit.now.code image.now unit.now }
    ensures unit { result.«module» ≡ number }
    ensures frame { result.frame ≡ first }
    ensures count { result.count ≡ length result.descriptors.now.list }
    ensures few { result.count < 2 ^ 31 }
    ensures bases { AreBelow result.descriptors.now.list }
{
    let types = image.types();
    ob_machine_step::Place {
        module: number,
        frame: first,
        first: unit.first,
        instructions: unit.code.len(),
        procedures: unit.procedures.len(),
        variable_links: unit.variable_links.as_slice(),
        procedure_links: unit.procedure_links.as_slice(),
        types: unit.types.as_slice(),
        descriptors: types.table(),
        count: types.count(),
    }
}

// The call or the return at a place. None says that the machine goes on.
#[inline(always)]
#[tactic(auto, using(crate::proofs::Legs::calls))]
fn call_at(
    image: &Image,
    unit: &Module,
    here: &mut Place,
    calls: &mut Calls,
    state: &mut State,
    instr: Instr,
) -> Option<Ending>
    requires at { slice_get image.now.modules here.old.unit ≡ Some unit.now }
    requires room { image.now.room ≡ room }
    requires short { length unit.now.code ≤ 262144 }
    requires instr { slice_get unit.now.code here.old.next ≡ Some instr }
    requires call { is_call instr.op ≡ true }
    requires can { CanRun (length image.now.modules) here.old calls.old state.old }
    ensures does { CallDoes image.now here.old here.new calls.old calls.new state.old state.new (option_map (outcome_in unit.now) result) }
    ensures less { result ≡ None → left_of state.new calls.new < left_of state.old calls.old }
    ensures can { result ≡ None → CanRun (length image.now.modules) here.new calls.new state.new }
    ensures room { 257 ≤ vec_capacity state.new.operands }
{
    let at = here.next;
    match call_or_return(image, unit, here, calls, state, instr) {
        Called::Goes => {
            let _ = calls.len();
            if state.operands.len() > 256 {
                return Some(Ending::Illegal { at });
            }
            None
        }
        Called::Done => Some(Ending::Done),
        Called::Traps(kind) => Some(Ending::Trap {
            kind,
            number: 0,
            at,
        }),
        Called::Spends => Some(Ending::TurnsSpent { at }),
        Called::Unable => Some(Ending::Illegal { at }),
    }
}

// The instructions of a call up to the next call or return, and this one. None says that the machine goes
// on.
#[inline(always)]
#[tactic(auto, using(crate::proofs::Legs::legs))]
fn leg<S: Sink>(
    image: &Image,
    unit: &Module,
    code: &Code,
    place: &ob_machine_step::Place<'_>,
    here: &mut Place,
    calls: &mut Calls,
    state: &mut State,
    out: &mut S,
) -> Option<Ending>
    requires at { slice_get image.now.modules here.old.unit ≡ Some unit.now }
    requires room { image.now.room ≡ room }
    requires short { length unit.now.code ≤ 262144 }
    requires code { code.now ≡ unit.now.code }
    requires here { IsHere place.now unit.now.code image.now unit.now }
    requires unit { place.now.«module» ≡ here.old.unit }
    requires frame { place.now.frame ≡ here.old.first }
    requires count { place.now.count ≡ length place.now.descriptors.now.list }
    requires few { place.now.count < 2 ^ 31 }
    requires bases { AreBelow place.now.descriptors.now.list }
    requires can { CanRun (length image.now.modules) here.old calls.old state.old }
    ensures does { LegDoes (S.tells out.old) (S.taken out.old) (S.taken out.new) image.now here.old here.new calls.old calls.new state.old state.new (option_map (outcome_in unit.now) result) }
    ensures less { result ≡ None → left_of state.new calls.new < left_of state.old calls.old }
    ensures can { result ≡ None → CanRun (length image.now.modules) here.new calls.new state.new }
    ensures room { 257 ≤ vec_capacity state.new.operands }
    ensures told { S.tells out.new ≡ S.tells out.old }
    ensures cause { LegHasCause (S.faults out.old) (S.faults out.new) (option_map (outcome_in unit.now) result) }
{
    let mut at = here.next;
    let pause = go(place, code, &mut at, state, out);
    here.next = at;
    match pause {
        Pause::Calls(instr) => call_at(image, unit, here, calls, state, instr),
        Pause::Traps { kind, number } => Some(Ending::Trap { kind, number, at }),
        Pause::Spent => Some(Ending::TurnsSpent { at }),
        Pause::Illegal => Some(Ending::Illegal { at }),
        Pause::SinkFault => Some(Ending::SinkFault),
    }
}

// The instructions of calls in one module, one or more of them. None says that the machine goes on in
// another module.
#[tactic(auto, using(crate::proofs::Legs::run_on_by, crate::proofs::Legs::run_start))]
fn run_in_module<S: Sink>(
    image: &Image,
    here: &mut Place,
    calls: &mut Calls,
    state: &mut State,
    out: &mut S,
) -> Option<Outcome>
    requires can { CanRun (length image.now.modules) here.old calls.old state.old }
    ensures does { LegDoes (S.tells out.old) (S.taken out.old) (S.taken out.new) image.now here.old here.new calls.old calls.new state.old state.new result }
    ensures less { result ≡ None → left_of state.new calls.new < left_of state.old calls.old }
    ensures can { result ≡ None → CanRun (length image.now.modules) here.new calls.new state.new }
    ensures room { 257 ≤ vec_capacity state.new.operands }
    ensures told { S.tells out.new ≡ S.tells out.old }
    ensures cause { LegHasCause (S.faults out.old) (S.faults out.new) result }
{
    let number = here.unit;
    let unit = module_at(image, number);
    let code = &unit.code;
    let mut place = read_place(image, unit, number, here.first);
    'legs: loop {
        if let Some(ending) = leg(image, unit, code, &place, here, calls, state, out) {
            return Some(outcome_in(unit, ending));
        }
        if here.unit != number {
            return None;
        }
        place.frame = here.first;
    }
}

/// Runs from a place to the end of the run, by the table. Takes no memory.
#[tactic(auto, using(crate::proofs::Legs::run_on_by, crate::proofs::Legs::run_start))]
pub fn run_calls<S: Sink>(
    image: &Image,
    here: &mut Place,
    calls: &mut Calls,
    state: &mut State,
    out: &mut S,
) -> Outcome
    requires can { CanRun (length image.now.modules) here.old calls.old state.old }
    ensures does { LegDoes (S.tells out.old) (S.taken out.old) (S.taken out.new) image.now here.old here.new calls.old calls.new state.old state.new (Some result) }
    ensures room { 257 ≤ vec_capacity state.new.operands }
    ensures told { S.tells out.new ≡ S.tells out.old }
    ensures cause { LegHasCause (S.faults out.old) (S.faults out.new) (Some result) }
{
    'modules: loop {
        if let Some(outcome) = run_in_module(image, here, calls, state, out) {
            return outcome;
        }
    }
}

/// The procedure that a run begins in.
pub fn entry_procedure(image: &Image, entry: ProcRef) -> &Callable
    requires { IsEntry image.now entry }
    ensures there { procedure_of image.now entry ≡ Some result.now }
    ensures params { result.now.params ≡ [] }
    ensures locals { result.now.locals ≤ 1048576 }
    ensures unit { entry.«module» < length image.now.modules }
    ensures room { image.now.room ≡ room }
{
    let _ = image.count();
    let Some(unit) = image.module(entry.module) else {
        unreachable!();
    };
    let Some(procedure) = unit.procedures.get(entry.proc as usize) else {
        unreachable!();
    };
    procedure
}

/// Puts the machine before the first instruction of a procedure without parameters, with these turns and no
/// operands. Its locals are then 0.
#[tactic(auto, using(crate::proofs::Runs::begins_so, crate::proofs::Runs::stack_so))]
pub fn begin(state: &mut State, procedure: &Callable, turns: u32)
    requires params { procedure.now.params ≡ [] }
    requires locals { procedure.now.locals ≤ 1048576 }
    ensures { IsBegun state.old state.new procedure.now turns }
{
    let _ = state.words.len();
    let locals = procedure.locals();
    let _ = state.words.clear(262_145, locals);
    state.stack = 262_145 + locals;
    state.operands.clear();
    state.turns = turns;
}
