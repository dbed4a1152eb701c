// A set that arrives in chunks: a handle and a staging buffer keep what has come, and a finalize sets it.
ghost use Rattle.std.specs.Prelude.{◌≡◌, [], ◌+◌, ◌≤◌};
ghost use Rattle.spec.specs.Status.{first_of};
ghost use Rattle.spec.specs.Incremental.{handle_tests, zero_handle, start_tests, new_handle, set_start, add_tests, advanced, set_add_data, store_set_finalize};
ghost use Rattle.spec.specs.IncrementalExact.{Startable};
ghost use Rattle.store.specs.Answers.{status_of};
ghost use Rattle.store.specs.Parts.{finalize_early};

use crate::set;
use crate::status::Refusal;
use buffers::parts;
use slots::{AreaKind, areas};
use spec::incremental::IncSetHandle;

// What a call answers, and the handle for the next one.
#[derive(Clone, Copy)]
pub struct SetProgress {
    pub outcome: Result<(), Refusal>,
    pub handle: IncSetHandle,
}

// 1, 3, 5.
#[tactic(auto, unfolding(spec::specs::Status::refuse_if))]
fn start_status(name: &[u8], iv: &[u8], final_data_size: usize) -> Result<(), Refusal>
    ensures { status_of result ≡ first_of (start_tests name.now iv.now final_data_size) }
{
    if iv.len() != 8 {
        return Err(Refusal::Length);
    }
    if 64 < name.len() {
        return Err(Refusal::InvalidName);
    }
    if 480 < final_data_size {
        return Err(Refusal::DataSize);
    }
    Ok(())
}

// No Default: an impl may stand only in `spec`, whose type it is, and that crate has no function (README).
pub fn zero_handle() -> IncSetHandle
    ensures { result ≡ zero_handle }
{
    IncSetHandle {
        name: [0; 64],
        name_len: 0,
        flags: 0,
        iv: [0; 8],
        final_data_size: 0,
        offset: 0,
    }
}

fn new_handle(name: &[u8], flags: u32, iv: &[u8], final_data_size: usize) -> IncSetHandle
    requires { Startable name.now iv.now final_data_size }
    ensures { result ≡ new_handle name.now flags iv.now final_data_size }
{
    let mut filled = [0u8; 64];
    parts::paste(&mut filled, 0, name);
    IncSetHandle {
        name: filled,
        name_len: name.len() as u32,
        flags,
        iv: parts::array::<8>(iv),
        final_data_size: final_data_size as u32,
        offset: 0,
    }
}

// A refusal gives a handle of zeros, which a later call takes for an empty name.
pub fn set_start(name: &[u8], flags: u32, iv: &[u8], final_data_size: usize) -> SetProgress
    ensures { record { answer = record { status = status_of result.outcome; numbers = []; output = [] }; after = result.handle } ≡ set_start name.now flags iv.now final_data_size }
{
    if let Err(refusal) = start_status(name, iv, final_data_size) {
        return SetProgress {
            outcome: Err(refusal),
            handle: zero_handle(),
        };
    }
    SetProgress {
        outcome: Ok(()),
        handle: new_handle(name, flags, iv, final_data_size),
    }
}

// 19 for a handle that no call leaves.
#[tactic(auto, unfolding(spec::specs::Status::refuse_if))]
fn handle_status(handle: IncSetHandle) -> Result<(), Refusal>
    ensures { status_of result ≡ first_of (handle_tests handle) }
{
    if 64 < handle.name_len
        || 480 < handle.final_data_size
        || handle.final_data_size < handle.offset
    {
        return Err(Refusal::TransferSize);
    }
    Ok(())
}

// 1, 19.
#[tactic(auto, unfolding(spec::specs::Status::refuse_if))]
fn add_status(handle: IncSetHandle, staging: &[u8], chunk: &[u8]) -> Result<(), Refusal>
    ensures { status_of result ≡ first_of (add_tests handle staging.now chunk.now) }
{
    if staging.len() != 480 {
        return Err(Refusal::Length);
    }
    handle_status(handle)?;
    // Subtracted, since a chunk's length added to the count might wrap.
    let left = (handle.final_data_size - handle.offset) as usize;
    if left < chunk.len() {
        return Err(Refusal::TransferSize);
    }
    Ok(())
}

fn advance(handle: IncSetHandle, n: u32) -> IncSetHandle
    requires { handle.offset + n ≤ 480 }
    ensures { result ≡ advanced handle n }
{
    IncSetHandle {
        offset: handle.offset + n,
        ..handle
    }
}

pub fn set_add_data(handle: IncSetHandle, staging: &mut [u8], chunk: &[u8]) -> SetProgress
    ensures { record { answer = record { status = status_of result.outcome; numbers = []; output = [] }; after = record { handle = result.handle; staging = staging.new } } ≡ set_add_data handle staging.old chunk.now }
{
    if let Err(refusal) = add_status(handle, staging, chunk) {
        return SetProgress {
            outcome: Err(refusal),
            handle,
        };
    }
    parts::paste(staging, handle.offset as usize, chunk);
    SetProgress {
        outcome: Ok(()),
        handle: advance(handle, chunk.len() as u32),
    }
}

// 1 and 19: what a finalize asks before it is a set.
#[tactic(auto, unfolding(spec::specs::Status::refuse_if))]
fn finalize_status(
    kv: &[u8],
    rbp: &[u8],
    device_key: &[u8],
    handle: IncSetHandle,
    staging: &[u8],
) -> Result<(), Refusal>
    ensures { status_of result ≡ first_of (finalize_early kv.now rbp.now device_key.now handle staging.now) }
{
    if !areas::area_sized(AreaKind::Kv, kv)
        || !areas::area_sized(AreaKind::Rbp, rbp)
        || device_key.len() != 16
        || staging.len() != 480
    {
        return Err(Refusal::Length);
    }
    handle_status(handle)?;
    if handle.offset != handle.final_data_size {
        return Err(Refusal::TransferSize);
    }
    Ok(())
}

pub fn set_finalize(
    kv: &mut [u8],
    rbp: &mut [u8],
    device_key: &[u8],
    handle: IncSetHandle,
    staging: &[u8],
) -> Result<(), Refusal>
    ensures { record { answer = record { status = status_of result; numbers = []; output = [] }; after = record { kv = kv.new; rbp = rbp.new } } ≡ store_set_finalize kv.old rbp.old device_key.now handle staging.now }
{
    finalize_status(kv, rbp, device_key, handle, staging)?;
    let name_len = handle.name_len as usize;
    let held = handle.offset as usize;
    set::set(
        kv,
        rbp,
        device_key,
        &handle.name[0..name_len],
        handle.flags,
        &handle.iv,
        &staging[0..held],
    )
}
