//! The laws of a line that makes a module of what is stale.
#![tactic(auto)]

ghost use Rattle.law_make.specs.Making.{MakesCompileExactly};
ghost use Rattle.law_make.specs.UpToDate.{MakesBringUpToDate, MeaningBringsUpToDate, SessionsBringUpToDate};
ghost use Rattle.ob_shell_model.specs.Bytes.{maker as of_bytes};
ghost use Rattle.ob_shell_model.specs.Model.{maker as of_meaning};

/// A law, with nothing to run: a make line compiles exactly the modules of its order that are stale
/// when their turn comes, each at most once, and it ends with their number. The clauses say so of
/// the session over bytes, and of its meaning.
pub fn makes_compile_exactly()
    ensures bytes { MakesCompileExactly of_bytes }
    ensures meaning { MakesCompileExactly of_meaning }
{}

/// A law, with nothing to run: behind a make line that has an order and is not refused, a check of
/// each module of the order that was not passed over finds it up to date. It is so in each folder
/// whose files hold bytes, whatever made them, and behind any lines of a session; and it is so by
/// the meaning, over a library.
pub fn makes_bring_up_to_date()
    ensures worlds { MakesBringUpToDate }
    ensures sessions { SessionsBringUpToDate }
    ensures meaning { MeaningBringsUpToDate }
{}
