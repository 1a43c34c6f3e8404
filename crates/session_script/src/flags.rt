ghost use Rattle.std.specs.Prelude.{◌≡◌, ◌≢◌, true, List, [], ◌++◌, IfOk, IfErr};
ghost use Rattle.vfs_names.specs.declared.calls.How.{How};
ghost use Rattle.session_script.specs.Calls.{flag_words, is_how};
ghost use Rattle.session_script.specs.declared.why.Why.TheVariants as why;
ghost use Rattle.session_script.specs.Faults.{By};

use crate::Why;
use crate::fault::Fault;
use crate::words::Words;
use vfs_names::{Access, How};

/// Takes the flags that stand next, in their order.
fn take_flags(access: Access, words: &mut Words) -> How
    ensures access { result.access ≡ access }
    ensures taken { words.old ≡ flag_words result ++ words.new }
    ensures only { (how : How) → how.access ≡ access → words.old ≡ flag_words how → (result ≡ how)
        × (words.new ≡ []) }
{
    let create = words.take(b"create");
    let excl = words.take(b"excl");
    let trunc = words.take(b"trunc");
    let append = words.take(b"append");
    How {
        access,
        create,
        excl,
        trunc,
        append,
    }
}

/// The flags go with each other and with the access.
fn is_how(how: &How) -> bool
    ensures { result ≡ is_how how.now }
{
    let flags = how.create || how.excl || how.trunc || how.append;
    (how.access != Access::Read || !flags) && (how.create || !how.excl)
}

/// The words that are left are the flags of an open.
pub(crate) fn flags(access: Access, words: &mut Words) -> Result<How, Fault>
    ensures found { IfOk result (λ how. (how.access ≡ access) × (is_how how ≡ true)
        × (words.old ≡ flag_words how)) }
    ensures bad { IfErr result (λ fault. (fault ≡ Fault.Bad why.Flag) ×
        ((how : How) → how.access ≡ access → is_how how ≡ true → words.old ≢ flag_words how)) }
{
    let how = take_flags(access, words);
    let None = words.next() else {
        return Err(Fault::Bad(Why::Flag));
    };
    if is_how(&how) {
        Ok(how)
    } else {
        Err(Fault::Bad(Why::Flag))
    }
}
