// The calls of mixes, as the edges run them: on the card, chip, key and IV that last, with a line's arguments.
#![tactic(auto)]

use edge_lines::answer::Answer;
use edge_lines::areas::{front, put};
use edge_lines::args::Args;
use edge_lines::bench::{Bench, LENT};
use edge_lines::floats;
use edge_lines::place::Place;
use store::status::Refusal;

// What a call answered: its status, and the numbers beside it, zeros where it was refused.
pub fn answered<const N: usize>(outcome: Result<[u64; N], Refusal>) -> Answer {
    match outcome {
        Ok(numbers) => Answer::call(0, &numbers),
        Err(refusal) => Answer::call(u64::from(refusal.code()), &[0; N]),
    }
}

pub fn store(args: Args, bench: &Bench, kv: &mut [u8], rbp: &mut [u8]) -> Result<(), Refusal> {
    mix::persist::store_encoded_mix(
        kv,
        rbp,
        bench.key(),
        bench.arg(args, 0),
        args.narrow(1),
        bench.iv(),
        bench.arg(args, 2),
    )
}

pub fn find(args: Args, bench: &Bench, mix_buf: &mut [u8]) -> Result<usize, Refusal> {
    mix::find::find_encoded_mix(
        bench.all(Place::Card),
        bench.all(Place::Chip),
        bench.key(),
        args.values[0] as u64,
        mix_buf,
    )
}

// Levels and pans, a register each, have as many floats as their bytes give.
pub fn encode(args: Args, bench: &Bench, mix_buf: &mut [u8]) -> Result<usize, Refusal> {
    let mut levels = [0.0f32; 256];
    let mut pans = [0.0f32; 256];
    floats::read_floats(bench.arg(args, 2), &mut levels);
    floats::read_floats(bench.arg(args, 3), &mut pans);
    mix::arrays::encode_sends(
        args.values[0] as u64,
        bench.arg(args, 1),
        front(&levels, args.values[2] / 4),
        front(&pans, args.values[3] / 4),
        mix_buf,
    )
}

// The arrays hold what no mix does, so that a part that was not written is seen. Those of the sends stand one behind the other in the answer.
pub fn decode(args: Args, bench: &mut Bench) -> Answer {
    let mut tags = [0xeeu8; 16];
    let mut levels = [9.0f32; 16];
    let mut pans = [9.0f32; 16];
    let decoded = mix::arrays::decode_sends(bench.arg(args, 0), &mut tags, &mut levels, &mut pans);
    let n = decoded.map_or(0, |decoded| decoded.count);
    let bytes = floats::size(n);
    let out = bench.reg_mut(LENT);
    put(out, 0, front(&tags, n));
    floats::put_floats(out, n, front(&levels, n));
    floats::put_floats(out, n.wrapping_add(bytes), front(&pans, n));
    answered(decoded.map(|decoded| [decoded.session_id])).and_bytes(&[n, bytes, bytes])
}
