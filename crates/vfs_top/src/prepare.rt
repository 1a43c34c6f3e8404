ghost use Rattle.std.specs.Prelude.{◌≡◌, ◌≤◌, ◌^◌, IfErr, IfOk, length, map, string_bytes};
ghost use Rattle.downloaders.specs.Rules.{HasChunk};
ghost use Rattle.run_words.specs.Words.{meaning};
ghost use Rattle.vfs_top.specs.Going.{CanDoAll};
ghost use Rattle.vfs_top.specs.Script.{IsAllowed, IsReady, IsTooLong};
ghost use Rattle.vfs_top.specs.Stop.{RefusesText, Stops};

use crate::input::{Unread, read_all};
use crate::stop::Stop;
use run_words::{RunWords, read_words};
use session_script::{Limit, Script, ScriptError, check_lines, check_reads, read_script};
use std::alloc::Global;
use vfs_outside::Source;

/// What a run is to do: what its words ask for, and its script.
#[derive(Drop)]
pub struct Job<'a> {
    pub run: RunWords<'a>,
    pub script: Script,
}

/// What is to be done, where the words are those of a run and the script is in the language and within the limits.
pub fn prepare<'a, S: Source>(
    alloc: Global,
    words: &'a [String],
    source: &mut S,
) -> Result<Job<'a>, Stop>
    ensures ready { IfOk result (λ job. IsReady (map string_bytes words.now)
        (S.left source.old) (S.left source.new) (meaning job.run) job.script) }
    ensures chunk { IfOk result (λ job. HasChunk job.run.plan.chunk) }
    ensures small { IfOk result (λ job. job.run.write_back ≤ 2 ^ 40) }
    ensures transfers { IfOk result (λ job. 1 ≤ job.run.transfers) }
    ensures can { IfOk result (λ job. CanDoAll job.script) }
    ensures few { IfOk result (λ job. length job.script ≤ 65536) }
    ensures stops { IfErr result (λ stop. Stops (map string_bytes words.now)
        (S.left source.old) (S.left source.new) (S.faults source.old) (S.faults source.new) stop) }
    ensures later { S.faults source.old ≤ S.faults source.new }
{
    let Ok(run) = read_words(words) else {
        return Err(Stop::Usage);
    };
    let text = match read_all(alloc, source) {
        Ok(text) => text,
        Err(why) => return Err(stop_of(why)),
    };
    match read_text(alloc, &text) {
        Ok(script) => Ok(Job { run, script }),
        Err(stop) => Err(stop),
    }
}

fn stop_of(why: Unread) -> Stop
    ensures fault { why ≡ Unread.Fault → result ≡ Stop.Source }
    ensures long { why ≡ Unread.TooLong → result ≡ Stop.Limit Limit.Script }
    ensures no_memory { why ≡ Unread.NoMemory → result ≡ Stop.NoMemory }
{
    match why {
        Unread::Fault => Stop::Source,
        Unread::TooLong => Stop::Limit(Limit::Script),
        Unread::NoMemory => Stop::NoMemory,
    }
}

/// The script that a text is.
#[tactic(auto, using(crate::proofs::Built::can_do_all, crate::proofs::Built::few_lines))]
fn read_text(alloc: Global, text: &[u8]) -> Result<Script, Stop>
    requires { length text.now ≤ 16777216 }
    ensures allowed { IfOk result (λ script. IsAllowed text.now script) }
    ensures can { IfOk result (λ script. CanDoAll script) }
    ensures few { IfOk result (λ script. length script ≤ 65536) }
    ensures refuses { IfErr result (λ stop. RefusesText text.now stop) }
{
    if check_lines(text).is_err() {
        return Err(Stop::Limit(Limit::Lines));
    }
    let script = match read_script(alloc, text) {
        Ok(script) => script,
        Err(ScriptError::Refused { line, why }) => return Err(Stop::Refused { line, why }),
        Err(ScriptError::NoMemory) => return Err(Stop::NoMemory),
    };
    match check_reads(&script) {
        Ok(()) => Ok(script),
        Err(_) => Err(Stop::Limit(Limit::Reads)),
    }
}
