ghost use Rattle.std.specs.Prelude.{◌^◌, ◌<◌};
ghost use Rattle.vfs_names.specs.Payload.{payload_len};

use crate::SparseBytes;
use std::alloc::Global;
use std::test::Fail;
use vfs_names::{Blob, Payload};

#[derive(Clone, Copy)]
enum Step {
    Fill { pos: u16, len: u16, byte: u8 },
    Pattern { pos: u16, len: u16, seed: u8 },
    Hello { pos: u16 },
    Cut { n: u16 },
}

const LEN: usize = 12_300;

// The plain list of bytes, each written by itself.
fn write_plain(plain: &mut [u8], pos: u16, payload: &Payload) {
    for (p, byte) in plain.iter_mut().enumerate() {
        let p = p as u64;
        let pos = u64::from(pos);
        if pos <= p && p - pos < payload.len() {
            *byte = payload.byte(p - pos);
        }
    }
}

fn write(bytes: &mut SparseBytes, plain: &mut [u8], pos: u16, payload: &Payload) -> Result<(), Fail>
    requires { payload_len payload.now < 2 ^ 16 }
{
    write_plain(plain, pos, payload);
    bytes.write(u64::from(pos), payload)?;
    Ok(())
}

fn take_step(
    alloc: Global,
    bytes: &mut SparseBytes,
    plain: &mut [u8],
    step: Step,
) -> Result<(), Fail> {
    match step {
        Step::Fill { pos, len, byte } => {
            let len = u64::from(len);
            write(bytes, plain, pos, &Payload::Fill { byte, len })
        }
        Step::Pattern { pos, len, seed } => {
            let len = u64::from(len);
            write(bytes, plain, pos, &Payload::Pattern { seed, len })
        }
        Step::Hello { pos } => {
            let hello = Blob::from_slice(alloc, b"hello")?;
            write(bytes, plain, pos, &Payload::Bytes(hello))
        }
        Step::Cut { n } => {
            for (p, byte) in plain.iter_mut().enumerate() {
                if usize::from(n) <= p {
                    *byte = 0;
                }
            }
            bytes.cut(u64::from(n));
            Ok(())
        }
    }
}

#[test]
fn bytes_are_those_of_a_plain_list(rt: HostRuntime) -> Result<(), Fail> {
    let steps = [
        Step::Fill {
            pos: 5000,
            len: 0,
            byte: 1,
        },
        Step::Hello { pos: 4094 },
        Step::Fill {
            pos: 8191,
            len: 2,
            byte: 9,
        },
        Step::Pattern {
            pos: 3,
            len: 9000,
            seed: 250,
        },
        Step::Hello { pos: 12_283 },
        Step::Cut { n: 8192 },
        Step::Fill {
            pos: 8200,
            len: 4000,
            byte: 4,
        },
        Step::Cut { n: 4097 },
        Step::Hello { pos: 4100 },
        Step::Cut { n: 4095 },
        Step::Cut { n: 0 },
    ];
    let mut bytes = SparseBytes::new(rt.alloc());
    let mut plain = [0u8; LEN];
    for row in steps {
        take_step(rt.alloc(), &mut bytes, &mut plain, row)?;
        let all = bytes.read(rt.alloc(), 0, LEN as u64)?;
        assert_eq!(rt; all.as_slice(), plain.as_slice());
        let middle = bytes.read(rt.alloc(), 4090, 20)?;
        assert_eq!(rt; middle.as_slice(), &plain[4090..4110]);
    }
    Ok(())
}

#[test]
fn a_far_byte_takes_one_block(rt: HostRuntime) -> Result<(), Fail> {
    let last = (1u64 << 40) - 1;
    let mut bytes = SparseBytes::new(rt.alloc());
    bytes.write(last, &Payload::Fill { byte: 255, len: 1 })?;
    assert_eq!(rt; bytes.blocks.len(), 1);
    assert_eq!(rt;
        bytes.read(rt.alloc(), last - 1, 3)?.as_slice(),
        [0, 255, 0].as_slice()
    );
    assert_eq!(rt; bytes.read(rt.alloc(), 0, 2)?.as_slice(), [0, 0].as_slice());
    bytes.cut(last);
    assert_eq!(rt; bytes.read(rt.alloc(), last, 1)?.as_slice(), [0].as_slice());
    bytes.cut(last - 4095);
    assert_eq!(rt; bytes.blocks.len(), 0);
    Ok(())
}

#[test]
fn blocks_are_no_larger_than_a_whole_one(rt: HostRuntime) -> Result<(), Fail> {
    let mut bytes = SparseBytes::new(rt.alloc());
    for n in 0u64..500 {
        bytes.write(10 * n, &Payload::Fill { byte: 1, len: 10 })?;
    }
    let whole = bytes.blocks.get(&0).ok_or("no block")?;
    assert_eq!(rt; whole.capacity(), 4096);
    let begun = bytes.blocks.get(&1).ok_or("no block")?;
    assert_eq!(rt; begun.len(), 904);
    Ok(())
}
