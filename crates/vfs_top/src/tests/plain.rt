use item_core::{Entry, FileKind};
use vfs_names::{Fingerprint, Payload};

/// No file of the script passes this.
pub const SPAN: usize = 128;

/// How many bytes the object has.
pub const OBJECT: u64 = 64;

/// The object's byte at a position.
pub fn object_byte(pos: usize) -> u8 {
    (pos % 200 + 1) as u8
}

/// The bytes of a file, with 0 from its size on.
#[derive(Clone, Copy)]
pub struct Content {
    pub size: u64,
    pub bytes: [u8; SPAN],
}

impl Content {
    pub fn none() -> Content {
        Content {
            size: 0,
            bytes: [0; SPAN],
        }
    }

    pub fn object() -> Content {
        let mut content = Content::none();
        for pos in 0..OBJECT {
            content.put(pos, object_byte(pos as usize));
        }
        content
    }

    pub fn put(&mut self, pos: u64, byte: u8) {
        if pos < SPAN as u64 {
            self.bytes[pos as usize] = byte;
            self.size = self.size.max(pos + 1);
        }
    }

    pub fn put_all(&mut self, pos: u64, bytes: &[u8]) {
        let mut at = pos;
        for byte in bytes {
            self.put(at, *byte);
            at = at.saturating_add(1);
        }
    }

    pub fn put_payload(&mut self, pos: u64, payload: &Payload) {
        for i in 0..payload.len() {
            self.put(pos.saturating_add(i), payload.byte(i));
        }
    }

    pub fn cut(&mut self, size: u64) {
        for pos in 0..SPAN {
            if pos as u64 >= size {
                self.bytes[pos] = 0;
            }
        }
        self.size = size;
    }

    /// What a read shows.
    pub fn part(&self, pos: u64, len: u64) -> &[u8] {
        let end = pos.saturating_add(len).min(self.size);
        self.bytes
            .as_slice()
            .get(pos as usize..end as usize)
            .unwrap_or(&[])
    }
}

/// A file by its history.
#[derive(Clone, Copy)]
pub struct Plain {
    pub kept: bool,
    pub dirty: bool,
    pub held: Option<Fingerprint>,
    pub base_end: u64,
    pub mtime: u64,
    pub content: Content,
}

impl Plain {
    fn new() -> Plain {
        Plain {
            kept: false,
            dirty: false,
            held: None,
            base_end: 0,
            mtime: 0,
            content: Content::none(),
        }
    }

    /// The file after those of its entries that took effect by so many calls.
    pub fn after(entries: &[Entry], calls: u64) -> Plain {
        let mut plain = Plain::new();
        for entry in entries {
            if entry.at <= calls {
                plain.take(entry);
            }
        }
        plain
    }

    fn take(&mut self, entry: &Entry) {
        match &entry.kind {
            FileKind::Create => {
                *self = Plain::new();
                self.kept = true;
                self.change(entry.by.now);
            }
            FileKind::Adopt(print) => self.adopt(*print),
            FileKind::Write { pos, payload } if !payload.is_empty() => {
                self.content.put_payload(*pos, payload);
                self.change(entry.by.now);
            }
            FileKind::SetSize(size) => {
                self.content.cut(*size);
                self.base_end = self.base_end.min(*size);
                self.change(entry.by.now);
            }
            _ => {}
        }
    }

    fn change(&mut self, now: u64) {
        self.dirty = true;
        self.mtime = now;
    }

    fn adopt(&mut self, print: Fingerprint) {
        *self = Plain {
            kept: true,
            dirty: false,
            held: Some(print),
            base_end: print.size,
            mtime: print.mtime,
            content: Content::object(),
        };
    }

    /// The byte where the cache has none.
    pub fn absent(&self, pos: usize) -> u8 {
        if (pos as u64) < self.base_end {
            object_byte(pos)
        } else {
            0
        }
    }
}
