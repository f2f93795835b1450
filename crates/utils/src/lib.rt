// src/utils.rs of the crate: packed numbers, and the common prefix of two keys.
#![tactic(auto)]

ghost use Rattle.std.specs.Prelude.{◌≡◌, ◌≤◌, ◌==◌, if◌then◌else◌, ℕ, length, take_while};
ghost use Rattle.std.specs.List.{zip};
ghost use Rattle.utils.specs.Packed.{pack_size, packed, pack_answer, packed_into, unpacked, unpack_answer, width_ok};
ghost use Rattle.utils.specs.Common.{common, ordering};

use std::cmp::Ordering;

/// The length of the longest common prefix of two keys, and their order.
#[derive(Clone, Copy, Debug, PartialEq, Eq)]
pub struct Common {
    pub lcp: usize,
    pub ord: Ordering,
}

/// The smallest number of bytes that can encode `n`.
#[tactic(auto, unfolding(crate::specs::Packed::pack_size))]
pub fn pack_size(n: u32) -> u8
    ensures { result ≡ pack_size n }
{
    if n < 256 {
        1
    } else if n < 65_536 {
        2
    } else if n < 16_777_216 {
        3
    } else {
        4
    }
}

/// Writes the lowest `nbytes` bytes of `n` into `out`, from the place `at` on, and answers the place behind them. Where the width is not 1 to 4 or the room
/// is too short, `out` stays as it was.
// `at` and `nbytes` stay beside `out`, and no part of it: the clauses `answer` and `out_after` are of the whole run, and of widths outside 1 to 4.
#[tactic(auto, unfolding(crate::specs::Packed::pack_answer, crate::specs::Packed::packed_into, crate::specs::Packed::packable, crate::specs::Packed::width_ok))]
pub fn pack_u32(out: &mut [u8], at: usize, n: u32, nbytes: u8) -> Option<usize>
    ensures answer { result ≡ pack_answer (length out.old) at nbytes }
    ensures out_after { out.new ≡ packed_into out.old at n nbytes }
{
    let w = width(nbytes)?;
    if out.len() < at || out.len() - at < w {
        return None;
    }
    let next = at + w;
    put_bytes(&mut out[at..next], n);
    Some(next)
}

/// The number in the first `nbytes` bytes of `slice`, unless the width is not 1 to 4 or the slice is too short.
// `nbytes` stays beside `slice`: the clause is also of a slice that is too short. A test, and no `slice.get(..w)?`, which is slower.
#[tactic(auto, using(crate::proofs::Bytes::unpacked_of_first), unfolding(crate::specs::Packed::unpack_answer, crate::specs::Packed::readable, crate::specs::Packed::width_ok))]
pub fn unpack_u32(slice: &[u8], nbytes: u8) -> Option<u32>
    ensures { result ≡ unpack_answer slice.now nbytes }
{
    let w = width(nbytes)?;
    if slice.len() < w {
        return None;
    }
    Some(get_bytes(&slice[..w]))
}

/// The length of the longest common prefix of `a` and `b`, and their order.
// The order by the characters behind the prefix, where a key that ends is less, and not by `a.cmp(b)`, which reads both keys again: docs/SPEED.md.
#[tactic(auto, using(crate::proofs::Prefix::shared_is_common))]
pub fn longest_common_prefix(a: &[u32], b: &[u32]) -> Common
    ensures lcp { result.lcp ≡ common a.now b.now }
    ensures ord { result.ord ≡ ordering a.now b.now }
{
    let lcp = shared(a, b);
    Common {
        lcp,
        ord: a.get(lcp).cmp(&b.get(lcp)),
    }
}

// The width as a number of bytes, if a number of 32 bits can have it. An arm for each, so that the loops over that many bytes unroll.
#[tactic(auto, unfolding(crate::specs::Packed::width_ok))]
fn width(nbytes: u8) -> Option<usize>
    ensures { result ≡ if width_ok nbytes then Some nbytes else None }
{
    match nbytes {
        1 => Some(1),
        2 => Some(2),
        3 => Some(3),
        4 => Some(4),
        _ => None,
    }
}

// How many characters a and b share at the front.
fn shared(a: &[u32], b: &[u32]) -> usize
    ensures { result ≡ length (take_while (λ (p : ℕ × ℕ). p.0 == p.1) (zip a.now b.now)) }
{
    a.iter().zip(b).take_while(|(x, y)| x == y).count()
}

// The lowest bytes of n, lowest first, as many as out has. By division, and not by `to_le_bytes`: the must-fail edit `byte_order` takes another base.
#[tactic(auto, using(crate::proofs::Bytes::put_more, crate::proofs::Bytes::put_all))]
fn put_bytes(out: &mut [u8], n: u32)
    ensures { out.new ≡ packed (length out.old) n }
{
    let mut x = n;
    for b in out.iter_mut() {
        *b = (x % 256) as u8; // no `From`, and a `try_from` only adds an `unwrap`
        x /= 256;
    }
}

// The number in the bytes, from its highest byte down. Not by `from_le_bytes`: the must-fail edit `get_bytes` takes another base.
#[tactic(auto, using(crate::proofs::Bytes::got_none, crate::proofs::Bytes::got_more))]
fn get_bytes(bytes: &[u8]) -> u32
    requires { length bytes.now ≤ 4 }
    ensures { result ≡ unpacked bytes.now (length bytes.now) }
{
    let mut x = 0;
    for b in bytes.iter().rev() {
        x = x * 256 + u32::from(*b);
    }
    x
}
