//! Environments whose interfaces stand together, built or grown.

ghost use Rattle.std.specs.Prelude.{◌≡◌, true, IfOk, IfErr, IfSome};
ghost use Rattle.ob_env.specs.Found.{CarryPrints};
ghost use Rattle.ob_env_ranks.specs.Marks.{are_ranked, AreRanks};
ghost use Rattle.ob_types.specs.Relations.{IsGrounded};
ghost use Rattle.ob_env.specs.Mapped.{map_of};
ghost use Rattle.ob_env.specs.Building.{Builds, Named, Stand, fault_of, stands_as};

use crate::behind::ranks_behind;
use crate::fit::check_fit;
use crate::stale::check_uses;
use ob_env::{Env, EnvFault};
use ob_env_files::SymbolFile;
use ob_env_ranks::ranks_of;
use ob_tree::List;
use std::alloc::Global;
use std::marker::Model;

/// An environment whose interfaces are closed, coherent and fit. Contracts see it as the list of
/// them, in the order in which the walk left their modules.
pub struct CoherentEnv {
    env: Env,
    // the heights of their objects, where they are known
    ranks: Option<List<List<u32>>>,
}

impl Model for CoherentEnv {
    ghost use Rattle.std.specs.Prelude.{List as Listed};
    ghost use Rattle.ob_types.specs.declared.face.Interface.{Interface as Face};
    ghost use Rattle.ob_env.specs.Building.{Stand};
    ghost use Rattle.ob_env_ranks.specs.Marks.{AreRanks};

    ghost Value = { Listed Face };

    ghost view = { λ e. e.env };

    ghost invariant = { λ e. Stand e.env × AreRanks e.env e.ranks };
}

impl Drop for CoherentEnv {
    fn drop(self) {
        let CoherentEnv { env: _, ranks: _ } = self;
    }
}

// The heights of the objects of interfaces that stand, where heights are known; or the first fault.
fn standing(alloc: Global, faces: &Env) -> Result<Option<List<List<u32>>>, EnvFault>
    ensures stand { IfOk result (λ ranks. Stand faces.now × AreRanks faces.now ranks) }
    ensures fault { IfErr result (λ e. Named (fault_of (stands_as faces.now)) e) }
{
    check_uses(faces, faces.faces())?;
    let Ok(ranks) = ranks_of(alloc, faces) else {
        return Err(EnvFault::Memory);
    };
    check_fit(alloc, faces, &ranks)?;
    Ok(ranks)
}

// The environment of these interfaces, or the first fault.
fn judged(alloc: Global, faces: Env) -> Result<CoherentEnv, EnvFault>
    ensures answer { Builds faces result }
    ensures grounded { IfOk result (λ env. IsGrounded (map_of env)) }
{
    match standing(alloc, &faces) {
        Ok(ranks) => Ok(CoherentEnv { env: faces, ranks }),
        Err(fault) => Err(fault),
    }
}

impl CoherentEnv {
    /// The environment of the interfaces of a whole walk, each object of which carries the prints
    /// of its texts; or the first use that is not met, or else the first object that does not fit. The types
    /// of what it accepts are grounded.
    pub fn build(alloc: Global, faces: List<SymbolFile>) -> Result<CoherentEnv, EnvFault>
        requires { CarryPrints faces }
        ensures answer { Builds faces result }
        ensures grounded { IfOk result (λ env. IsGrounded (map_of env)) }
    {
        match Env::new(alloc, faces) {
            Ok(faces) => judged(alloc, faces),
            Err(_) => Err(EnvFault::Memory),
        }
    }

    // The heights of the types of these interfaces, where they begin with those of this
    // environment, and what is new stands.
    fn grown(self, alloc: Global, faces: &Env) -> Option<List<List<u32>>>
        ensures { IfSome result (λ ranks. Stand faces.now × (are_ranked faces.now ranks ≡ true)) }
    {
        let CoherentEnv { env: before, ranks } = self;
        ranks_behind(alloc, faces, &before, ranks)
    }

    /// The environment of these interfaces, as [`CoherentEnv::build`] answers it, in the place of this one.
    /// Where they begin with those of this environment, only what is new is tested.
    pub fn renewed(self, alloc: Global, faces: List<SymbolFile>) -> Result<CoherentEnv, EnvFault>
        requires { CarryPrints faces }
        ensures answer { Builds faces result }
        ensures grounded { IfOk result (λ env. IsGrounded (map_of env)) }
    {
        let Ok(faces) = Env::new(alloc, faces) else {
            return Err(EnvFault::Memory);
        };
        match self.grown(alloc, &faces) {
            Some(heights) => Ok(CoherentEnv {
                env: faces,
                ranks: Some(heights),
            }),
            None => judged(alloc, faces),
        }
    }

    /// The environment itself.
    pub fn env(&self) -> &Env
        ensures { result.now ≡ self.now }
    {
        &self.env
    }
}
