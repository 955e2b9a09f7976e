//! The words by which a module is called.

ghost use Rattle.std.specs.Prelude.{◌≡◌, ◌≤◌, List, [], ◌∷◌, ℕ, Some, String, length, string_bytes};
ghost use Rattle.std.specs.Global.{Global};
ghost use Rattle.device_model.specs.Names.{mod_state_name, query_name, module_name, module_named, module_called};
ghost use Rattle.device_model.specs.declared.module_word.ModuleWord.{ModuleWord};

use crate::calls::{ModState, Query};

/// What a module is called for.
#[derive(Clone, Copy, Debug, PartialEq, Eq)]
pub enum ModuleWord {
    State(ModState),
    Ask(Query),
}

const MODULE_WORDS: [ModuleWord; 12] = [
    ModuleWord::Ask(Query::SupportsRollback),
    ModuleWord::Ask(Query::NeedsArtifactReboot),
    ModuleWord::State(ModState::Download),
    ModuleWord::State(ModState::ArtifactInstall),
    ModuleWord::State(ModState::ArtifactReboot),
    ModuleWord::State(ModState::ArtifactVerifyReboot),
    ModuleWord::State(ModState::ArtifactCommit),
    ModuleWord::State(ModState::ArtifactRollback),
    ModuleWord::State(ModState::ArtifactRollbackReboot),
    ModuleWord::State(ModState::ArtifactVerifyRollbackReboot),
    ModuleWord::State(ModState::ArtifactFailure),
    ModuleWord::State(ModState::Cleanup),
];

impl ModState {
    /// The word by which a module is called in this state.
    pub fn name(self) -> &'static str
        ensures text { result.now ≡ mod_state_name self }
        ensures short { length result.now ≤ 32 }
    {
        match self {
            ModState::Download => "Download",
            ModState::ArtifactInstall => "ArtifactInstall",
            ModState::ArtifactReboot => "ArtifactReboot",
            ModState::ArtifactVerifyReboot => "ArtifactVerifyReboot",
            ModState::ArtifactCommit => "ArtifactCommit",
            ModState::ArtifactRollback => "ArtifactRollback",
            ModState::ArtifactRollbackReboot => "ArtifactRollbackReboot",
            ModState::ArtifactVerifyRollbackReboot => "ArtifactVerifyRollbackReboot",
            ModState::ArtifactFailure => "ArtifactFailure",
            ModState::Cleanup => "Cleanup",
        }
    }
}

impl Query {
    /// The word by which a module is asked.
    pub fn name(self) -> &'static str
        ensures text { result.now ≡ query_name self }
        ensures short { length result.now ≤ 32 }
    {
        match self {
            Query::SupportsRollback => "SupportsRollback",
            Query::NeedsArtifactReboot => "NeedsArtifactReboot",
        }
    }
}

impl ModuleWord {
    pub fn name(self) -> &'static str
        ensures text { result.now ≡ module_name self }
        ensures short { length result.now ≤ 32 }
    {
        match self {
            ModuleWord::State(state) => state.name(),
            ModuleWord::Ask(query) => query.name(),
        }
    }

    /// What a text names, if it is one of the twelve words.
    pub fn read(text: &[u8]) -> Option<ModuleWord>
        ensures { result ≡ module_named text.now }
    {
        MODULE_WORDS
            .iter()
            .copied()
            .find(|word| text == word.name().as_bytes())
    }

    /// What a module's command line calls it for: one of the twelve words and a folder. None where it has another form.
    #[tactic(auto, unfolding(crate::specs::Names::module_called))]
    pub fn of_call(words: &[String]) -> Option<ModuleWord>
        ensures { result ≡ module_called words.now }
    {
        match words {
            [word, _] => ModuleWord::read(word.as_bytes()),
            _ => None,
        }
    }
}

/// What is read of a word is what it names, and nothing else is read: so a module that is called by a word's name and a folder
/// does what the word says.
#[tactic(auto, unfolding(crate::specs::Names::module_called))]
pub fn words_are_read()
    ensures read { (word : ModuleWord) → module_named (module_name word) ≡ Some word }
    ensures only { (text : List ℕ) (word : ModuleWord) → module_named text ≡ Some word → text ≡ module_name word }
    ensures called { (word : ModuleWord) (first folder : String Global) → string_bytes first ≡ module_name word
        → module_called (first ∷ folder ∷ []) ≡ Some word }
{}
