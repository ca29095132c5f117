//! The machine: modules enter, commands run, modules go.

ghost use Rattle.std.specs.Prelude.{◌≡◌, ◌≤◌, length, IfOk};
ghost use Rattle.ob_obj.specs.Images.{AreEnterable};
ghost use Rattle.ob_machine_image.specs.Cut.{cut_to};
ghost use Rattle.ob_machine.specs.Machine.{made, Enters, IsEntry, Runs, RunHasCause};

use crate::Outcome;
use crate::running::{begin, entry_procedure, run_calls};
use ob_io::Sink;
use ob_machine_calls::{Calls, Place};
use ob_machine_image::Image;
use ob_machine_operands::State;
use ob_mem::Memory;
use ob_obj::ObjFile;
use ob_tree::{List, ProcRef};
use std::alloc::{AllocError, Global};
use std::marker::Model;

/// A machine: at most 255 modules with 262,144 words of globals, 1,048,576 words of stack for at most
/// 4,096 calls, each with at most 256 operands, and a heap.
#[derive(Drop)]
pub struct Machine {
    image: Image,
    state: State,
    waiting: Calls,
}

impl Model for Machine {
    ghost use Rattle.std.specs.Prelude.{◌≤◌, vec_capacity};
    ghost use Rattle.ob_machine.specs.Machine.{Held};

    ghost Value = { Held };

    ghost view = { λ a. record { image = a.image; words = a.state.words.words; heap = a.state.words.next } };

    ghost invariant = { λ a. 257 ≤ vec_capacity a.state.operands };
}

/// What `Machine::enter` tells.
#[derive(Clone, Copy, PartialEq, Eq, Drop)]
pub struct Entered {
    /// The number of the first module that was entered.
    pub first: u32,
}

impl Machine {
    /// A machine without modules, with so many words of heap, all words 0 and free. An `Err` is a want
    /// of memory.
    pub fn new(alloc: Global, heap: u32) -> Result<Machine, AllocError>
        requires some { 1 ≤ heap }
        requires limit { heap ≤ 4194304 }
        ensures { IfOk result (λ m. m ≡ made heap) }
    {
        let words = Memory::new(alloc, heap)?;
        let waiting = Calls::new(alloc)?;
        let operands = Vec::with_capacity(alloc, 257)?;
        Ok(Machine {
            image: Image::new(alloc),
            state: State {
                words,
                stack: 262_145,
                operands,
                turns: 0,
            },
            waiting,
        })
    }

    /// Enters files behind the modules that are there, in order, and tells the number of the first. Each
    /// file can be entered after those before it. The words of its globals are then its variables, all 0,
    /// and its strings; the other words stay. An `Err` is a want of memory, and leaves the machine as it
    /// was.
    pub fn enter(&mut self, files: List<ObjFile>) -> Result<Entered, AllocError>
        requires { AreEnterable self.old.image files }
        ensures { Enters self.old self.new files result }
    {
        let first = self.image.count();
        self.image.enter(&mut self.state.words, files.as_slice())?;
        Ok(Entered { first })
    }

    /// Keeps the image of the first modules, of which there are at least so many: the next free word of
    /// the globals is then the one behind theirs. All words stay. Takes no memory.
    pub fn cut(&mut self, modules: u32)
        requires { modules ≤ length self.old.image.modules }
        ensures { self.new ≡ record self.old { image = cut_to modules self.old.image } }
    {
        self.image.cut(modules);
    }

    /// Runs a procedure without parameters and result to its end, by the table of the instructions. It takes
    /// no memory, and the modules stay.
    ///
    /// The words and `turns` are then as the run left them, and the run's text was written. Only where the
    /// sink failed the answer is `SinkFault`: then a front of the text was written, and nothing is promised of
    /// the words and `turns`.
    pub fn run<S: Sink>(&mut self, entry: ProcRef, turns: &mut u32, out: &mut S) -> Outcome
        requires { IsEntry self.old.image entry }
        ensures runs { Runs (S.tells out.old) (S.taken out.old) (S.taken out.new) self.old self.new entry turns.old turns.new result }
        ensures image { self.new.image ≡ self.old.image }
        ensures told { S.tells out.new ≡ S.tells out.old }
        ensures cause { RunHasCause (S.faults out.old) (S.faults out.new) result }
    {
        let procedure = entry_procedure(&self.image, entry);
        begin(&mut self.state, procedure, *turns);
        self.waiting.clear();
        let mut here = Place {
            unit: entry.module,
            procedure: entry.proc,
            first: 262_145,
            next: procedure.entry(),
        };
        let outcome = run_calls(
            &self.image,
            &mut here,
            &mut self.waiting,
            &mut self.state,
            out,
        );
        *turns = self.state.turns;
        outcome
    }
}
