//! Numbers in the bytes of a file.
ghost use Rattle.std.specs.Prelude.{◌≡◌, ◌≤◌, ◌<◌, ◌+◌, ◌^◌, ◌≤ℤ◌, take, length, pos};
ghost use Rattle.tb_dvi.specs.Machine.{unsigned_number, signed_number};
ghost use Rattle.tb_dvi.specs.Lister.{IsWithin};

/// A number without sign, of at most four bytes.
#[tactic(auto, using(crate::proofs::NumberLemmas::number_steps))]
pub(crate) fn unsigned_number(bytes: &[u8]) -> u64
    requires { length bytes.now ≤ 4 }
    ensures value { result ≡ unsigned_number bytes.now }
    ensures small { result < 4294967296 }
{
    let mut number = 0;
    for byte in bytes {
        number = number * 256 + u64::from(*byte);
    }
    number
}

// How many numbers this many bytes can hold.
fn numbers_in(bytes: usize) -> i64
    requires { bytes ≤ 4 }
    ensures value { result ≡ pos (256 ^ bytes) }
    ensures low { pos 0 ≤ℤ result }
    ensures high { result ≤ℤ pos 4294967296 }
{
    match bytes {
        0 => 1,
        1 => 256,
        2 => 65536,
        3 => 16777216,
        _ => 4294967296,
    }
}

/// A number of two's complement, of at most four bytes; without bytes it is 0.
pub(crate) fn signed_number(bytes: &[u8]) -> i64
    requires { length bytes.now ≤ 4 }
    ensures value { result ≡ signed_number bytes.now }
    ensures small { IsWithin 1 result }
{
    let number = unsigned_number(bytes) as i64;
    if !bytes.is_empty() && bytes[0] >= 128 {
        number - numbers_in(bytes.len())
    } else {
        number
    }
}

/// The bytes of a special after its first: those of its length, which are `size`, and as many as that says.
pub(crate) fn special_size(size: usize, args: &[u8]) -> usize
    requires { size ≤ 4 }
    ensures { result ≡ size + unsigned_number (take size args.now) }
{
    let front = if args.len() < size {
        args
    } else {
        &args[..size]
    };
    size + unsigned_number(front) as usize
}
