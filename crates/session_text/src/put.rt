ghost use Rattle.std.specs.Prelude.{◌≡◌, ◌++◌, decimal, take, OnOk, OnErr};
ghost use Rattle.session_text.specs.Printed.{Keeps};

use itoa::Buffer;
use vfs_names::{Blob, NoMemory};

/// The bytes, appended.
pub fn put(out: &mut Blob, bytes: &[u8]) -> Result<(), NoMemory>
    ensures ok { OnOk result (out.new ≡ out.old ++ bytes.now) }
    ensures kept { Keeps out.old out.new }
{
    match out.append(bytes) {
        Ok(()) => Ok(()),
        Err(NoMemory) => Err(NoMemory),
    }
}

/// The number in decimal digits.
pub fn put_number(out: &mut Blob, n: u64) -> Result<(), NoMemory>
    ensures ok { OnOk result (out.new ≡ out.old ++ decimal n) }
    ensures kept { Keeps out.old out.new }
{
    let mut buffer = Buffer::new();
    put(out, buffer.format(n).as_bytes())
}

/// What printing answered; where it failed, only the first `before` bytes stay.
pub fn settle(out: &mut Blob, before: usize, printed: Result<(), NoMemory>) -> Result<(), NoMemory>
    ensures answer { result ≡ printed }
    ensures ok { OnOk printed (out.new ≡ out.old) }
    ensures err { OnErr printed (out.new ≡ take before out.old) }
{
    match printed {
        Ok(()) => Ok(()),
        Err(NoMemory) => {
            out.truncate(before);
            Err(NoMemory)
        }
    }
}
