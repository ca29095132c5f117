//! What one compile leaves for the next.

use ob_env_coherent::CoherentEnv;
use ob_env_files::{SymbolCache, SymbolFile};
use ob_env_shown::BlankRecords;
use std::alloc::Global;

/// What compiles leave for those behind them: the symbol files that were read, and the environment
/// of the last module with its records. It makes a compile faster where much below the module is as it was, and says
/// nothing of the answer.
#[derive(Drop)]
pub struct Compiler {
    /// The symbol files that were read.
    pub(crate) symbols: SymbolCache,
    /// The environment of the last module.
    pub(crate) last: Option<CoherentEnv>,
    /// The records of an environment, as modules see them.
    pub(crate) records: Option<BlankRecords>,
}

impl Compiler {
    /// One that has compiled nothing yet. Takes no memory.
    pub fn new(alloc: Global) -> Compiler {
        Compiler {
            symbols: SymbolCache::new(alloc),
            last: None,
            records: None,
        }
    }

    /// Keeps the symbol file of a module that was compiled, so that its bytes need not be read. Where
    /// memory is wanting it is not kept.
    pub(crate) fn keep(&mut self, alloc: Global, file: &SymbolFile) {
        if let Ok(again) = file.clone() {
            let _ = self.symbols.keep(alloc, file.module(), again);
        }
    }
}
