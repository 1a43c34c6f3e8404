ghost use Rattle.std.specs.Prelude.{◌≡◌, ◌≢◌, ℕ, List, [], ◌∷◌, IfOk, IfErr, IfSome, IfNone};
ghost use Rattle.session_script.specs.declared.verb.Control.{Control};
ghost use Rattle.session_script.specs.declared.verb.Control.TheVariants as control;
ghost use Rattle.session_script.specs.Words.{IsSession, session_word};
ghost use Rattle.session_script.specs.Calls.{Asks, IsLine, control_word};
ghost use Rattle.session_script.specs.Faults.{IsFault, IsWordFault, IsBadLine, By, begins_as_session, control_places};

use crate::Why;
use crate::call::{CallLine, What};
use crate::fault::Fault;
use crate::number::number_of;
use crate::places::{end, span};
use crate::verb::Control;
use crate::verbs::call;
use crate::words::{Words, behind, has_gap};
use std::alloc::Global;

/// The session that the word names.
fn session_of(word: &[u8]) -> Option<u8>
    ensures found { IfSome result (λ s. IsSession s × (word.now ≡ session_word s)) }
    ensures none { IfNone result ((s : ℕ) → IsSession s → word.now ≢ session_word s) }
{
    let Some(digits) = behind(word, b"s") else {
        return None;
    };
    let Some(s) = number_of(digits) else {
        return None;
    };
    if s != 0 && s <= 16 {
        Some(s as u8)
    } else {
        None
    }
}

fn begins_as_session(word: &[u8]) -> bool
    ensures { result ≡ begins_as_session word.now }
{
    match word {
        [first, second, ..] => *first == b's' && second.is_ascii_digit(),
        _ => false,
    }
}

fn control_named(word: &[u8]) -> Option<Control>
    ensures found { IfSome result (λ c. word.now ≡ control_word c) }
    ensures none { IfNone result ((c : Control) → word.now ≢ control_word c) }
{
    if word == b"advance".as_slice() {
        Some(Control::Advance)
    } else if word == b"tick".as_slice() {
        Some(Control::Tick)
    } else if word == b"clean".as_slice() {
        Some(Control::Clean)
    } else if word == b"poll".as_slice() {
        Some(Control::Poll)
    } else if word == b"join".as_slice() {
        Some(Control::Join)
    } else if word == b"restart".as_slice() {
        Some(Control::Restart)
    } else {
        None
    }
}

/// A span of time, and no more words.
fn advance(words: &mut Words) -> Result<What, Fault>
    ensures found { IfOk result (λ asked. (n : ℕ) (all : List (List ℕ))
        → all ≡ control_word control.Advance ∷ words.old → Asks n all asked) }
    ensures bad { IfErr result (λ fault. By
        (λ why. IsFault (control_places control.Advance) words.old why) fault) }
{
    let ms = span(words)?;
    end(words)?;
    Ok(What::Advance(ms))
}

/// What is asked for, where no word is left.
fn alone(asked: What, words: &mut Words) -> Result<What, Fault>
    ensures found { IfOk result (λ r. (r ≡ asked) × (words.old ≡ [])) }
    ensures bad { IfErr result (λ fault. By (λ why. IsFault [] words.old why) fault) }
{
    end(words)?;
    Ok(asked)
}

/// What a line that no session makes asks for, by the words after its verb.
fn control(verb: Control, words: &mut Words) -> Result<What, Fault>
    ensures found { IfOk result (λ asked. (n : ℕ) (all : List (List ℕ))
        → all ≡ control_word verb ∷ words.old → Asks n all asked) }
    ensures bad { IfErr result (λ fault. By
        (λ why. IsFault (control_places verb) words.old why) fault) }
{
    match verb {
        Control::Advance => advance(words),
        Control::Tick => alone(What::Tick, words),
        Control::Clean => alone(What::Clean, words),
        Control::Poll => alone(What::Poll, words),
        Control::Join => alone(What::Join, words),
        Control::Restart => alone(What::Restart, words),
    }
}

/// What the words of line `n` ask for.
fn asked(alloc: Global, n: u32, words: &mut Words) -> Result<What, Fault>
    ensures found { IfOk result (Asks n words.old) }
    ensures bad { IfErr result (λ fault. By (λ why. IsWordFault words.old why) fault) }
{
    let Some(first) = words.next() else {
        return Err(Fault::Bad(Why::Words));
    };
    if let Some(session) = session_of(first) {
        return match call(alloc, words) {
            Ok(call) => Ok(What::Call(CallLine {
                line: n,
                session,
                call,
            })),
            Err(fault) => Err(fault),
        };
    }
    if begins_as_session(first) {
        return Err(Fault::Bad(Why::Session));
    }
    match control_named(first) {
        Some(verb) => control(verb, words),
        None => Err(Fault::Bad(Why::Verb)),
    }
}

/// What line `n`, whose text this is, asks for.
pub(crate) fn read_line(alloc: Global, n: u32, text: &[u8]) -> Result<What, Fault>
    ensures found { IfOk result (IsLine n text.now) }
    ensures bad { IfErr result (λ fault. By (λ why. IsBadLine text.now why) fault) }
{
    let Ok(_) = std::str::from_utf8(text) else {
        return Err(Fault::Bad(Why::Utf8));
    };
    if has_gap(text) {
        return Err(Fault::Bad(Why::Words));
    }
    let mut words = Words::of(text);
    asked(alloc, n, &mut words)
}
