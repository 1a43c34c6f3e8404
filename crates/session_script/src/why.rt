ghost use Rattle.std.specs.Prelude.{◌≡◌};
ghost use Rattle.session_script.specs.Reasons.{why_text};

/// Why a line is refused: what the first of its words that doesn't fit was to be.
#[derive(Clone, Copy, Debug, PartialEq, Eq)]
pub enum Why {
    /// The line isn't UTF-8.
    Utf8,
    /// The first word begins as a session does, and is none.
    Session,
    /// The word is no verb of its place.
    Verb,
    Handle,
    Path,
    Access,
    Flag,
    Number,
    Payload,
    /// Too few or too many words, two spaces together, or a space at an end.
    Words,
    /// The line is in the language, and the program can't do it yet.
    Unbuilt,
}

impl Why {
    /// The reason's name.
    pub fn text(&self) -> &'static str
        ensures { result.now ≡ why_text self.now }
    {
        match self {
            Why::Utf8 => "utf8",
            Why::Session => "session",
            Why::Verb => "verb",
            Why::Handle => "handle",
            Why::Path => "path",
            Why::Access => "access",
            Why::Flag => "flag",
            Why::Number => "number",
            Why::Payload => "payload",
            Why::Words => "words",
            Why::Unbuilt => "unbuilt",
        }
    }
}

/// What stands in the way of reading a script.
#[derive(Clone, Copy, Debug, PartialEq, Eq)]
pub enum ScriptError {
    /// The first bad line, counted from 1.
    Refused { line: u32, why: Why },
    NoMemory,
}
