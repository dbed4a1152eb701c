// The calls, on the card, chip, key, IV, handle and staging buffer that last, with a line's arguments. What a call may write is lent as a copy, and put back.
use buffers::numbers::le_at;
use edge_lines::answer::Answer;
use edge_lines::areas::{front_mut, put};
use edge_lines::args::Args;
use edge_lines::bench::{ATTRIBUTES, Bench, CHIP, HANDLE, LENT, MEDIA, STAGING};
use edge_lines::place::Place;
use edge_lines::words::Call;
use edge_mixes::answered;
use keys::key_file::KeyAttributes;
use spec::incremental::IncSetHandle;
use store::handle::{decode_handle, encode_handle};
use store::status::Refusal;

// As a key file has them.
fn attributes(bench: &Bench) -> KeyAttributes {
    let bytes = bench.first::<20>(ATTRIBUTES);
    KeyAttributes {
        lifetime: le_at(&bytes, 0, 4),
        key_type: le_at(&bytes, 4, 4),
        usage: le_at(&bytes, 8, 4),
        alg: le_at(&bytes, 12, 4),
        enrollment_alg: le_at(&bytes, 16, 4),
    }
}

fn set(args: Args, bench: &Bench, kv: &mut [u8], rbp: &mut [u8]) -> Result<(), Refusal> {
    store::set::set(
        kv,
        rbp,
        bench.key(),
        bench.arg(args, 0),
        args.narrow(1),
        bench.iv(),
        bench.arg(args, 2),
    )
}

fn save(args: Args, bench: &Bench, kv: &mut [u8], rbp: &mut [u8]) -> Result<(), Refusal> {
    keys::persist::save_persistent_key(
        kv,
        rbp,
        bench.key(),
        args.narrow(0),
        attributes(bench),
        bench.arg(args, 1),
        args.narrow(2),
        bench.iv(),
    )
}

fn handle(bench: &Bench) -> IncSetHandle {
    decode_handle(bench.first::<88>(HANDLE))
}

fn finalize(bench: &Bench, kv: &mut [u8], rbp: &mut [u8]) -> Result<(), Refusal> {
    store::incremental::set_finalize(
        kv,
        rbp,
        bench.key(),
        handle(bench),
        bench.all(Place::Staging),
    )
}

// The calls that may write card and chip answer with a status alone.
fn write<F: FnOnce(&Bench, &mut [u8], &mut [u8]) -> Result<(), Refusal>>(
    bench: &mut Bench,
    call: F,
) -> Answer
    requires { F.IsAlwaysCallable call }
{
    let mut kv = [0u8; CHIP];
    let mut rbp = [0u8; 5330];
    put(&mut kv, 0, bench.at(Place::Card, 0, CHIP));
    put(&mut rbp, 0, bench.at(Place::Chip, 0, 5330));
    let result = call(
        bench,
        front_mut(&mut kv, bench.len(Place::Card)),
        front_mut(&mut rbp, bench.len(Place::Chip)),
    );
    bench.set_media(&kv, &rbp);
    answered(result.map(|_| []))
}

fn get(args: Args, bench: &Bench, output: &mut [u8]) -> Result<usize, Refusal> {
    store::get::get(
        bench.all(Place::Card),
        bench.all(Place::Chip),
        bench.key(),
        bench.arg(args, 0),
        args.values[1],
        output,
    )
}

fn info(args: Args, bench: &Bench) -> Answer {
    let info = store::get::get_info(
        bench.all(Place::Card),
        bench.all(Place::Chip),
        bench.key(),
        bench.arg(args, 0),
    );
    answered(info.map(|info| [u64::from(info.data_size), u64::from(info.flags)]))
}

fn next(args: Args, bench: &Bench, name_buf: &mut [u8]) -> Answer {
    let next = store::iterate::iterator_next(
        bench.all(Place::Card),
        bench.all(Place::Chip),
        bench.arg(args, 0),
        args.values[1],
        name_buf,
    );
    answered(next.map(|next| [next.name_len as u64, next.next_slot as u64]))
}

fn load(args: Args, bench: &Bench, key_buf: &mut [u8]) -> Result<usize, Refusal> {
    keys::persist::load_persistent_key(
        bench.all(Place::Card),
        bench.all(Place::Chip),
        bench.key(),
        args.narrow(0),
        key_buf,
    )
}

fn format(args: Args, bench: &Bench, key_buf: &mut [u8]) -> Result<usize, Refusal> {
    keys::format::format_key_file(attributes(bench), bench.arg(args, 0), key_buf)
}

fn counted(outcome: Result<usize, Refusal>) -> Answer {
    answered(outcome.map(|n| [n as u64]))
}

// The calls that are lent a buffer: n bytes of its register, which has them afterwards.
fn lend<F: FnOnce(&Bench, &mut [u8]) -> Answer>(bench: &mut Bench, n: usize, call: F) -> Answer
    requires { F.IsAlwaysCallable call }
{
    let mut lent = [0u8; 1024];
    put(&mut lent, 0, bench.reg(LENT, n));
    let answer = call(bench, front_mut(&mut lent, n));
    put(bench.reg_mut(LENT), 0, &lent);
    answer.and_bytes(&[n])
}

// The handle that a call handed back lasts, and its bytes are part of the answer.
fn keep_handle(handle: IncSetHandle, bench: &mut Bench) {
    let bytes = encode_handle(handle);
    put(bench.reg_mut(HANDLE), 0, &bytes);
    put(bench.reg_mut(LENT), 0, &bytes);
}

// A start that is refused hands back a handle of zeros.
fn start(args: Args, bench: &mut Bench) -> Answer {
    let started = store::incremental::set_start(
        bench.arg(args, 0),
        args.narrow(1),
        bench.iv(),
        args.values[2],
    );
    keep_handle(started.handle, bench);
    answered(started.outcome.map(|_| [])).and_bytes(&[88])
}

// The staging buffer's bytes stand behind the handle's in the answer.
fn add(args: Args, bench: &mut Bench) -> Answer {
    let n = bench.len(Place::Staging);
    let mut staging = [0u8; 512];
    put(&mut staging, 0, bench.all(Place::Staging));
    let added = store::incremental::set_add_data(
        handle(bench),
        front_mut(&mut staging, n),
        bench.arg(args, 0),
    );
    keep_handle(added.handle, bench);
    put(bench.reg_mut(STAGING), 0, &staging);
    put(bench.reg_mut(LENT), 88, &staging);
    answered(added.outcome.map(|_| [])).and_bytes(&[88, n])
}

fn made(call: Call, args: Args, bench: &mut Bench) -> Answer {
    match call {
        Call::Set => write(bench, |bench, kv, rbp| set(args, bench, kv, rbp)),
        Call::Remove => write(bench, |bench, kv, rbp| {
            store::remove::remove(kv, rbp, bench.arg(args, 0))
        }),
        Call::Reset => write(bench, |_, kv, rbp| store::reset::reset(kv, rbp)),
        Call::Save => write(bench, |bench, kv, rbp| save(args, bench, kv, rbp)),
        Call::Finalize => write(bench, finalize),
        Call::StoreMix => write(bench, |bench, kv, rbp| {
            edge_mixes::store(args, bench, kv, rbp)
        }),
        Call::Get => lend(bench, args.values[2], |bench, lent| {
            counted(get(args, bench, lent))
        }),
        Call::Next => lend(bench, args.values[2], |bench, lent| next(args, bench, lent)),
        Call::Load => lend(bench, args.values[1], |bench, lent| {
            counted(load(args, bench, lent))
        }),
        Call::Format => lend(bench, args.values[1], |bench, lent| {
            counted(format(args, bench, lent))
        }),
        Call::FindMix => lend(bench, args.values[1], |bench, lent| {
            counted(edge_mixes::find(args, bench, lent))
        }),
        Call::EncodeMix => lend(bench, args.values[4], |bench, lent| {
            counted(edge_mixes::encode(args, bench, lent))
        }),
        Call::DecodeMix => edge_mixes::decode(args, bench),
        Call::Info => info(args, bench),
        Call::Start => start(args, bench),
        Call::Add => add(args, bench),
    }
}

// A call of a line, of a sweep or of a fill: where it is refused, every byte of card and chip must be as it was.
pub fn checked_call(call: Call, args: Args, bench: &mut Bench) -> Answer {
    let mut before = [0u8; MEDIA];
    put(&mut before, 0, bench.media());
    let answer = made(call, args, bench);
    answer.and_changed(&before[..] != bench.media())
}
