ghost use Rattle.cache_memory.specs.declared.script.DiskCall.{DiskCall};

/// A call of a disk that may be planned to fail.
#[derive(Clone, Copy, Debug, PartialEq, Eq)]
pub enum DiskCall {
    Attach,
    Slots,
    Take,
}

/// The call of this kind and number is to fail.
#[derive(Clone, Copy, Debug, PartialEq, Eq)]
pub struct DiskFault {
    pub call: DiskCall,
    pub nth: u64,
}
