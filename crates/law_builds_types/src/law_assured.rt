//! The modules of builds that are loaded together are judged ones, and their procedures and bodies are
//! checked.

ghost use Rattle.law_builds_types.specs.assured_laws.Judged.{LoadedAreJudged};
ghost use Rattle.law_builds_types.specs.assured_laws.Checked.{LoadedAreChecked};

/// A law, with nothing to run. Whatever interfaces the modules of loaded builds were compiled against,
/// each is the checked module that it is against the interfaces of those before it; so the program of
/// the builds is one of judged modules (`law_program_context`: `AreJudgedModules`). And the procedures and the
/// bodies of such builds keep what their code rests on, as the law of files asks, but for what is
/// written beside (`specs/Checked.antt`: `IsLeft`).
pub fn loaded_are_checked()
    ensures judged { LoadedAreJudged }
    ensures checked { LoadedAreChecked }
{}
