//! The procedures and the bodies of modules that compile keep the limits of activations and operands.

ghost use Rattle.law_builds_bodies.specs.limits_laws.Limits.{CompiledKeepLimits, LoadedKeepLimits};

/// A law, with nothing to run. A module that exceeds no limit by the descriptions that it was compiled
/// with keeps those of activations and operands by all that say the same of what it names; and so do
/// the modules of builds that are loaded together by the descriptions of their program. (Taken for
/// granted: that those say the same, `LoadedAreSame`.)
pub fn loaded_keep_limits()
    ensures compiled { CompiledKeepLimits }
    ensures loaded { LoadedKeepLimits }
{}
