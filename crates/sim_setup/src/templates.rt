//! Code 7: the templates of resolved sources.

ghost use Rattle.std.specs.Prelude.{All, IfErr, IfOk, IfSome, IsErr, length, None, Some, ◌<◌, ◌≡◌, ◌≢◌, ◌≤◌};
ghost use Rattle.sim_setup.specs.Common.{IsTemplate, names_in, origin_of, origins_of};
ghost use Rattle.sim_setup.specs.Setups.{Meets, template_at as template_at_number, templates_from as templates_from_sources};

use crate::fault::{SetupFault, refused};
use sim_base::{Global, OutOfMemory, Template, Templates};
use sim_merge::Library;
use sim_traits::{TraitFault, template_of};
use sim_tree::Source;

/// The templates of sources with this library, or the refusal of the first that is none.
pub fn templates_from(
    alloc: Global,
    sources: &[Source<'_>],
    library: &Library<'_>,
) -> Result<Templates, SetupFault>
    requires few { length sources.now ≤ 256 }
    requires names { library.now.names ≡ names_in (origins_of sources.now) }
    ensures value { Meets result (templates_from_sources (origins_of sources.now) library.now.roots) }
    ensures limits { IfOk result (λ templates. All (IsTemplate (length templates)) templates) }
{
    let mut found = Vec::new(alloc);
    for (number, source) in sources.iter().enumerate() {
        match template_at(alloc, source, library, number as u16)? {
            Some(template) => found.push(template)?,
            None => return Err(refused(7, number)),
        }
    }
    Ok(Templates::from_items(found))
}

#[tactic(auto, unfolding(crate::specs::Setups::template_at))]
fn template_at(
    alloc: Global,
    source: &Source<'_>,
    library: &Library<'_>,
    number: u16,
) -> Result<Option<Template>, OutOfMemory>
    requires { number < length library.now.names }
    ensures value { IfOk result (λ found. found ≡ template_at_number library.now.names library.now.roots number (origin_of source.now)) }
    ensures limits { IfOk result (λ found. IfSome found (IsTemplate (length library.now.names))) }
{
    template_read(template_of(alloc, &source.name, library.tree(number), library))
}

// What is read of a tree: every refusal of a template is one answer.
fn template_read(read: Result<Template, TraitFault>) -> Result<Option<Template>, OutOfMemory>
    ensures ok { IfOk read (λ template. result ≡ Ok (Some template)) }
    ensures refused { IfErr read (λ fault. fault ≢ TraitFault.OutOfMemory → result ≡ Ok None) }
    ensures memory { IfErr read (λ fault. fault ≡ TraitFault.OutOfMemory → IsErr result) }
{
    match read {
        Ok(template) => Ok(Some(template)),
        Err(TraitFault::OutOfMemory) => Err(OutOfMemory),
        Err(_) => Ok(None),
    }
}
