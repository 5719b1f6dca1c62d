//! Theorems about the definitions, each the contract of a function that does nothing.

ghost use Rattle.{sim_packed.specs.Files.{files_bytes, files_in, IsShortFile, IsWord, words_bytes, words_in}, sim_store.specs.Held.File};
ghost use Rattle.std.specs.Prelude.{All, List, reverse, Some, ℕ, ◌≡◌};

/// Words and files are read from their bytes as what they are; of the files the last stands first.
pub fn what_is_packed_is_read_back()
    ensures words { (words : List (List ℕ)) → All IsWord words → words_in (words_bytes words) ≡ words }
    ensures files { (files : List File) → All IsShortFile files → files_in (files_bytes files) ≡ Some (reverse files) }
{}
