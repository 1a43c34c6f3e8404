ghost use Rattle.std.specs.Prelude.{◌≡◌, ℕ, ◌+◌, ◌*◌, ◌<◌, ◌≤◌, ◌^◌, [], ◌∷◌, ◌++◌, length, IfOk, IfErr, OnOk};
ghost use Rattle.session_script.specs.declared.call.What.{What};
ghost use Rattle.session_script.specs.declared.why.Why.{Why};
ghost use Rattle.session_script.specs.Faults.{By};
ghost use Rattle.session_script.specs.Script.{Does, IsRefused, IsScript, IsRefusedAt};

use crate::built::is_built;
use crate::call::{Line, Script, What};
use crate::fault::Fault;
use crate::line::read_line;
use crate::lines::{first_line, is_quiet};
use crate::{ScriptError, Why};
use std::alloc::Global;

/// What line `n`, whose text this is, asks for, where the program can do it.
fn read_built(alloc: Global, n: u32, text: &[u8]) -> Result<What, Fault>
    ensures found { IfOk result (Does n text.now) }
    ensures bad { IfErr result (λ fault. By (λ why. IsRefused n text.now why) fault) }
{
    match read_line(alloc, n, text) {
        Ok(asked) => {
            if is_built(&asked) {
                Ok(asked)
            } else {
                Err(Fault::Bad(Why::Unbuilt))
            }
        }
        Err(fault) => Err(fault),
    }
}

/// Adds what line `n`, whose text this is, asks for.
fn add_line(alloc: Global, n: u32, text: &[u8], lines: &mut Vec<Line>) -> Result<(), ScriptError>
    ensures added { OnOk result ((asked : What) × Does n text.now asked
        × (lines.new.items ≡ lines.old.items ++ record { line = n; what = asked } ∷ [])) }
    ensures refused { (line : ℕ) (why : Why) → result ≡ Err (ScriptError.Refused line why)
        → (line ≡ n) × IsRefused n text.now why }
{
    match read_built(alloc, n, text) {
        Ok(what) => match lines.push(Line { line: n, what }) {
            Ok(()) => Ok(()),
            Err(_) => Err(ScriptError::NoMemory),
        },
        Err(Fault::Bad(why)) => Err(ScriptError::Refused { line: n, why }),
        Err(Fault::NoMemory) => Err(ScriptError::NoMemory),
    }
}

/// How many lines are long enough to ask for something: no more than one in five bytes.
fn lines_to_read(text: &[u8]) -> usize
    ensures { 5 * result ≤ length text.now + 1 }
{
    let mut rest = text;
    let mut count = 0;
    while !rest.is_empty() {
        let (line, after) = first_line(rest);
        if line.len() >= 4 && !is_quiet(line) {
            count += 1;
        }
        rest = after;
    }
    count
}

/// Reads a script. Linear in its length, in time and in memory, of which it takes less than 20
/// times the script's length.
pub fn read_script(alloc: Global, text: &[u8]) -> Result<Script, ScriptError>
    requires { length text.now < 2 ^ 32 }
    ensures found { IfOk result (λ script. IsScript text.now script) }
    ensures refused { (line : ℕ) (why : Why) → result ≡ Err (ScriptError.Refused line why)
        → IsRefusedAt text.now line why }
{
    let Ok(mut lines) = Vec::with_capacity(alloc, lines_to_read(text)) else {
        return Err(ScriptError::NoMemory);
    };
    let mut rest = text;
    let mut done = 0;
    while !rest.is_empty() {
        let n = done + 1;
        let (line, after) = first_line(rest);
        if !is_quiet(line) {
            match add_line(alloc, n, line, &mut lines) {
                Ok(()) => {}
                Err(error) => return Err(error),
            }
        }
        rest = after;
        done = n;
    }
    Ok(Script::from_lines(lines))
}
