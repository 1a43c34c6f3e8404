ghost use Rattle.std.specs.Prelude.{◌≡◌, ◌↔◌, IfErr};
ghost use Rattle.session_script.specs.Reasons.{limit_text, most_of};
ghost use Rattle.session_script.specs.Limits.{IsTooBig, HasTooManyLines, ReadsTooMuch, bytes_of, bytes_of_call};

use crate::lines::first_line;
use crate::{Call, Line, Script, What};

/// The most bytes of a script.
pub const MAX_SCRIPT: usize = 16_777_216;

/// The most lines of a script, empty lines and comments counted.
pub const MAX_LINES: usize = 65_536;

/// The most bytes that one read may ask for.
pub const MAX_READ: u64 = 131_072;

/// The most bytes that the reads of a script may ask for together, each counted up to `MAX_READ`.
pub const MAX_READS: u64 = 67_108_864;

/// The limit that a script is above.
#[derive(Clone, Copy, Debug, PartialEq, Eq)]
pub enum Limit {
    Script,
    Lines,
    Reads,
}

impl Limit {
    /// The limit's name.
    pub fn text(&self) -> &'static str
        ensures { result.now ≡ limit_text self.now }
    {
        match self {
            Limit::Script => "script",
            Limit::Lines => "lines",
            Limit::Reads => "reads",
        }
    }

    /// The most that is allowed: bytes of the script, lines of it, bytes that its reads ask for.
    pub fn most(&self) -> u64
        ensures { result ≡ most_of self.now }
    {
        match self {
            Limit::Script => MAX_SCRIPT as u64,
            Limit::Lines => MAX_LINES as u64,
            Limit::Reads => MAX_READS,
        }
    }
}

/// The script is short enough. Takes no memory.
pub fn check_size(text: &[u8]) -> Result<(), Limit>
    ensures found { (result ≡ Err Limit.Script) ↔ IsTooBig text.now }
    ensures limit { IfErr result (λ limit. limit ≡ Limit.Script) }
{
    if text.len() > MAX_SCRIPT {
        Err(Limit::Script)
    } else {
        Ok(())
    }
}

/// The script has few enough lines. Takes no memory.
pub fn check_lines(text: &[u8]) -> Result<(), Limit>
    ensures found { (result ≡ Err Limit.Lines) ↔ HasTooManyLines text.now }
    ensures limit { IfErr result (λ limit. limit ≡ Limit.Lines) }
{
    let mut rest = text;
    let mut lines = 0;
    while !rest.is_empty() {
        let (_, after) = first_line(rest);
        if lines == MAX_LINES {
            return Err(Limit::Lines);
        }
        lines += 1;
        rest = after;
    }
    Ok(())
}

/// How many bytes a line may read.
fn bytes_of(asked: &What) -> u64
    ensures { result ≡ bytes_of asked.now }
{
    match asked {
        What::Call(line) => bytes_of_call(&line.call),
        _ => 0,
    }
}

fn bytes_of_call(call: &Call) -> u64
    ensures { result ≡ bytes_of_call call.now }
{
    match call {
        Call::Read { len, .. } => (*len).min(MAX_READ),
        _ => 0,
    }
}

/// The reads of the script ask for few enough bytes. Takes no memory.
pub fn check_reads(script: &Script) -> Result<(), Limit>
    ensures found { (result ≡ Err Limit.Reads) ↔ ReadsTooMuch script.now }
    ensures limit { IfErr result (λ limit. limit ≡ Limit.Reads) }
{
    check_lines_read(script.lines())
}

fn check_lines_read(lines: &[Line]) -> Result<(), Limit>
    ensures found { (result ≡ Err Limit.Reads) ↔ ReadsTooMuch lines.now }
    ensures limit { IfErr result (λ limit. limit ≡ Limit.Reads) }
{
    let mut total = 0;
    for line in lines {
        total += bytes_of(&line.what);
        if total > MAX_READS {
            return Err(Limit::Reads);
        }
    }
    Ok(())
}
