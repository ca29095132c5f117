//! A module in the machine.

use crate::callable::Callable;
use ob_instr::Position;
use ob_machine_fusion::Code;
use ob_tree::{List, Name, ProcRef};
use std::marker::Model;

/// A module in the machine.
pub struct Module {
    pub name: Name,
    pub code: Code,
    pub positions: List<Position>,
    pub procedures: List<Callable>,
    /// The address of its first word of globals.
    pub first: u32,
    /// The exported variables, each with its address.
    pub variables: List<(Name, u64)>,
    /// The exported procedures, each with its number.
    pub commands: List<(Name, u32)>,
    /// The addresses of its strings, in order.
    pub strings: List<u32>,
    /// The addresses of the variables that its links name.
    pub variable_links: List<u64>,
    /// The procedures that its links name.
    pub procedure_links: List<ProcRef>,
    /// The numbers of the descriptors of its own types, and then of those that its links name.
    pub types: List<u32>,
}

// By hand: what enters a module has one call where it lets one go, and proves no destructor of its parts.
impl Drop for Module {
    fn drop(self) {
        let Module {
            name: _,
            code: _,
            positions: _,
            procedures: _,
            first: _,
            variables: _,
            commands: _,
            strings: _,
            variable_links: _,
            procedure_links: _,
            types: _,
        } = self;
    }
}

impl Model for Module {
    ghost use Rattle.ob_instr.specs.Image.{ModuleImage};
    ghost use Rattle.ob_machine_image.specs.Whole.{IsModule};

    ghost Value = { ModuleImage };

    ghost view = { λ u. record { name = u.name; code = u.code; positions = u.positions; procedures = u.procedures; first = u.first; variables = u.variables; commands = u.commands; strings = u.strings; variable_links = u.variable_links; procedure_links = u.procedure_links; types = u.types } };

    ghost invariant = { λ u. IsModule (record { name = u.name; code = u.code; positions = u.positions; procedures = u.procedures; first = u.first; variables = u.variables; commands = u.commands; strings = u.strings; variable_links = u.variable_links; procedure_links = u.procedure_links; types = u.types }) };
}
