ghost use Rattle.std.specs.Prelude.{◌≡◌, ◌≢◌, IfSome, IfNone};
ghost use Rattle.run_words.specs.declared.name.Name.{Name};
ghost use Rattle.run_words.specs.Options.{word_of, place};

/// The options, in the order of their places.
#[derive(Clone, Copy, Debug, PartialEq, Eq)]
pub enum Name {
    Remote,
    Cache,
    CacheMode,
    WorkerTurns,
    ChunkSize,
    ChunkLimit,
    WriteBack,
    Transfers,
}

impl Name {
    /// How many options there are.
    pub(crate) const COUNT: usize = 8;

    /// The option that the word names.
    pub(crate) fn of(word: &str) -> Option<Name>
        ensures found { IfSome result (λ name. word.now ≡ word_of name) }
        ensures none { IfNone result ((name : Name) → word.now ≢ word_of name) }
    {
        match word {
            "--remote" => Some(Name::Remote),
            "--cache" => Some(Name::Cache),
            "--vfs-cache-mode" => Some(Name::CacheMode),
            "--worker-turns" => Some(Name::WorkerTurns),
            "--vfs-read-chunk-size" => Some(Name::ChunkSize),
            "--vfs-read-chunk-size-limit" => Some(Name::ChunkLimit),
            "--vfs-write-back" => Some(Name::WriteBack),
            "--transfers" => Some(Name::Transfers),
            _ => None,
        }
    }

    pub(crate) fn place(self) -> usize
        ensures { result ≡ place self }
    {
        self as usize
    }
}
