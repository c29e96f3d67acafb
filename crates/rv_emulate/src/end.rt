// How runs of the emulator end.

/// How a run ends: as a run of the abstract machine does; or, with the place of the instruction, at
/// a word that is no instruction, a fetch outside the code, a load or a store that is misaligned,
/// leaves its region or lacks the right, or a call that can't be made; or cut off by its budget of
/// instructions; or for want of memory.
#[derive(Clone, Copy, PartialEq, Eq, Debug)]
pub enum CpuEnd {
    Exit(u8),
    Trap(u32),
    Undefined(u32),
    Budget,
    UnitFault(u32, u32),
    Illegal(u64),
    Fetch(u64),
    Load(u64),
    Store(u64),
    BadCall(u64),
    Runaway,
    Memory,
}

/// What a step answers.
#[derive(Clone, Copy, PartialEq, Eq, Debug)]
pub enum CpuStep {
    Next,
    Ended(CpuEnd),
}
