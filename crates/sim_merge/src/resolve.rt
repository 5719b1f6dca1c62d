//! Templates with all that they inherit: each tree is laid over that of its parent, parents before children.

ghost use Rattle.sim_merge.specs.{Libraries.is_layable, Overlay.IfRefusal, Resolution.{are_distinct, names_in, origins_of, resolution_of, roots_in}};
ghost use Rattle.std.specs.{List.list_all, Prelude.{Err, IfErr, IfOk, IsTrue, length, Ok, ◌≡◌, ◌≤◌}};

use crate::chains::{check_chains, names_of, parents_of};
use crate::family::Family;
use crate::{Library, MergeFault};
use sim_tree::Source;
use std::alloc::Global;

impl<'a> Library<'a> {
    /// The templates of these sources with all that they inherit, or the first one that has no resolved tree.
    pub fn resolve(alloc: Global, sources: &[Source<'a>]) -> Result<Library<'a>, MergeFault>
        requires few { length sources.now ≤ 256 }
        requires distinct { IsTrue (are_distinct (names_in (origins_of sources.now))) }
        requires layable { IsTrue (list_all is_layable (roots_in (origins_of sources.now))) }
        ensures names { IfOk result (λ library. library.names ≡ names_in (origins_of sources.now)) }
        ensures roots { IfOk result (λ library. resolution_of (origins_of sources.now) ≡ Ok library.roots) }
        ensures refused { IfErr result (λ fault. IfRefusal fault (resolution_of (origins_of sources.now) ≡ Err fault)) }
    {
        let names = names_of(alloc, sources)?;
        let parents = parents_of(alloc, &names, sources)?;
        check_chains(alloc, parents.as_slice())?;
        let family = Family {
            sources,
            parents: parents.as_slice(),
        };
        let trees = family.trees(alloc)?;
        Ok(Library::of(names, trees))
    }
}
