//! What the index of a refusal says of a list: the items before it are read, and the one at it is not, beside their
//! records; or a turn falls there, and none before. Each function does nothing; its contract is the law.

ghost use Rattle.sim_setup.specs.Setups.{CommandIndexIsLeast, EntityIndexIsLeast, FallIndexIsLeast, SourceIndexIsLeast, TemplateIndexIsLeast};

/// The index of a source that is refused is the least, behind the places of the keys.
pub fn source_index_is_least()
    ensures { SourceIndexIsLeast }
{}

/// The index of a template that is refused is the least.
pub fn template_index_is_least()
    ensures { TemplateIndexIsLeast }
{}

/// The index of an entity that is refused is the least.
pub fn entity_index_is_least()
    ensures { EntityIndexIsLeast }
{}

/// The index of a command that is refused is the least.
pub fn command_index_is_least()
    ensures { CommandIndexIsLeast }
{}

/// The index of a command whose turn is less than that of the one before it is the least.
pub fn fall_index_is_least()
    ensures { FallIndexIsLeast }
{}
