// The C functions, over the public functions of the other crates, and nothing else. docs/C-API.md and host/groatlantern.h state each.
#![tactic(auto)]

ghost use Rattle.std.specs.Prelude.{◌≡◌, length, min};
ghost use Rattle.walk.specs.Walk.{elems, vacants};
ghost use Rattle.walk.specs.Query.{answer_of, values_after, lengths_after, counted};
ghost use Rattle.node.specs.Character.{is_character};
ghost use Rattle.utils.specs.Packed.{pack_size, pack_answer, packed_into, unpack_answer};
ghost use Rattle.utils.specs.Common.{common, ordering};
ghost use Rattle.mapper.specs.Code.{code};
ghost use Rattle.export.specs.Numbers.{placed, unpacked_as, found_as, counted_as, common_parts, node_parts, flag};
ghost use Rattle.trie.specs.Trie as Trie;
ghost use Rattle.mptrie.specs.MpTrie as MpTrie;

use node::{Node, Refusal};
use std::cmp::Ordering;
use utils::Common;

/// The status of an answer where there is none: no such key, no such number.
pub const NONE: u32 = 0xffff_ffff;

/// An answer that is one number. status: 0, a refusal's number, or NONE; value is 0 unless status is 0.
// A status beside a value: the C interface has no `Option` and no `Result`.
#[repr(C)]
#[derive(Clone, Copy)]
pub struct GroatAnswer {
    pub status: u32,
    pub value: u32,
}

/// A place in a lent run. status: 0, a refusal's number, or NONE; next is 0 unless status is 0.
// A status beside a value, and a type of its own for 64 bits: the C interface.
#[repr(C)]
#[derive(Clone, Copy)]
pub struct GroatPlace {
    pub status: u32,
    pub next: u64,
}

/// The common prefix of two keys: its length, and 0, 1 or 2 as the first key is less, equal or greater.
// An order as a number: the C interface, over which no enum crosses.
#[repr(C)]
#[derive(Clone, Copy)]
pub struct GroatCommon {
    pub lcp: u64,
    pub ord: u32,
}

/// The parts of an element; the last three are 0 or 1.
// Flags as numbers: the C interface.
#[repr(C)]
#[derive(Clone, Copy)]
pub struct GroatNode {
    pub base: u32,
    pub check: u32,
    pub leaf: u32,
    pub marked: u32,
    pub vacant: u32,
}

impl From<Option<u32>> for GroatAnswer {
    ghost from_gives = { λ found answer. answer ≡ unpacked_as found };

    fn from(found: Option<u32>) -> GroatAnswer {
        match found {
            Some(value) => GroatAnswer { status: 0, value },
            None => GroatAnswer {
                status: NONE,
                value: 0,
            },
        }
    }
}

impl From<Result<Option<u32>, Refusal>> for GroatAnswer {
    ghost from_gives = { λ found answer. answer ≡ found_as found };

    fn from(found: Result<Option<u32>, Refusal>) -> GroatAnswer {
        match found {
            Ok(value) => value.into(),
            Err(refusal) => GroatAnswer {
                status: refusal.number(),
                value: 0,
            },
        }
    }
}

// As the first one, for the other C struct: one for both would need a type of both, which the C interface has not.
impl From<Option<usize>> for GroatPlace {
    ghost from_gives = { λ found place. place ≡ placed found };

    fn from(found: Option<usize>) -> GroatPlace {
        match found {
            Some(next) => GroatPlace {
                status: 0,
                next: next as u64, // no `From`, and a `try_from` only adds an `unwrap`
            },
            None => GroatPlace {
                status: NONE,
                next: 0,
            },
        }
    }
}

impl From<Result<usize, Refusal>> for GroatPlace {
    ghost from_gives = { λ matches place. place ≡ counted_as matches };

    fn from(matches: Result<usize, Refusal>) -> GroatPlace {
        match matches {
            Ok(next) => Some(next).into(),
            Err(refused) => GroatPlace {
                status: refused.number(),
                next: 0,
            },
        }
    }
}

impl From<Common> for GroatCommon {
    ghost from_gives = { λ found parts. parts ≡ common_parts found.lcp found.ord };

    fn from(found: Common) -> GroatCommon {
        GroatCommon {
            lcp: found.lcp as u64, // no `From`, and a `try_from` only adds an `unwrap`
            ord: match found.ord {
                Ordering::Less => 0,
                Ordering::Equal => 1,
                Ordering::Greater => 2,
            },
        }
    }
}

impl From<Node> for GroatNode {
    ghost from_gives = { λ element parts. parts ≡ node_parts element.base element.check };

    fn from(element: Node) -> GroatNode {
        GroatNode {
            base: element.get_base(),
            check: element.get_check(),
            leaf: u32::from(element.is_leaf()),
            marked: u32::from(element.has_leaf()),
            vacant: u32::from(element.is_vacant()),
        }
    }
}

/// The smallest number of bytes that holds n.
#[unsafe(no_mangle)]
pub extern "C" fn groat_pack_size(n: u32) -> u8
    ensures { result ≡ pack_size n }
{
    utils::pack_size(n)
}

/// Packs the lowest nbytes bytes of n into out from the place at on.
// `at` and `nbytes` beside the run: the C interface.
#[unsafe(no_mangle)]
pub extern "C" fn groat_pack_u32(out: &mut [u8], at: usize, n: u32, nbytes: u8) -> GroatPlace
    ensures answer { result ≡ placed (pack_answer (length out.old) at nbytes) }
    ensures out_after { out.new ≡ packed_into out.old at n nbytes }
{
    utils::pack_u32(out, at, n, nbytes).into()
}

/// The number in the first nbytes bytes of slice.
// `nbytes` beside the run: the C interface.
#[unsafe(no_mangle)]
pub extern "C" fn groat_unpack_u32(slice: &[u8], nbytes: u8) -> GroatAnswer
    ensures { result ≡ unpacked_as (unpack_answer slice.now nbytes) }
{
    utils::unpack_u32(slice, nbytes).into()
}

/// The length of the longest common prefix of two keys, and their order.
#[unsafe(no_mangle)]
pub extern "C" fn groat_longest_common_prefix(a: &[u32], b: &[u32]) -> GroatCommon
    ensures { result ≡ common_parts (common a.now b.now) (ordering a.now b.now) }
{
    utils::longest_common_prefix(a, b).into()
}

/// The parts of the element with these two numbers.
#[unsafe(no_mangle)]
pub extern "C" fn groat_node(base: u32, check: u32) -> GroatNode
    ensures { result ≡ node_parts base check }
{
    Node { base, check }.into()
}

/// 1 if c is a character, else 0: a flag as a number, for the C interface.
#[unsafe(no_mangle)]
pub extern "C" fn groat_is_character(c: u32) -> u32
    ensures { result ≡ flag (is_character c) }
{
    u32::from(node::is_character(c))
}

/// The code of a character in a table; all ones, for the C interface, where it has none.
#[tactic(auto, using(mapper::proofs::Find::unwrap_find))]
#[unsafe(no_mangle)]
pub extern "C" fn groat_code_of(table: &[u32], c: u32) -> u32
    ensures { result ≡ code table.now c }
{
    mapper::code_of(table, c).unwrap_or(NONE)
}

/// The value of a key in a dictionary of the plain form.
#[unsafe(no_mangle)]
pub extern "C" fn groat_trie_exact_match(
    table: &[u32],
    base: &[u32],
    check: &[u32],
    query: &[u32],
) -> GroatAnswer
    ensures { result ≡ found_as (Trie.exact_answer table.now base.now check.now query.now) }
{
    trie::exact_match(table, base, check, query).into()
}

/// The value of a key in a dictionary of the minimal-prefix form.
#[unsafe(no_mangle)]
pub extern "C" fn groat_mptrie_exact_match(
    table: &[u32],
    base: &[u32],
    check: &[u32],
    tails: &[u8],
    code_width: u8,
    value_width: u8,
    query: &[u32],
) -> GroatAnswer
    ensures { result ≡ found_as (MpTrie.exact_answer table.now base.now check.now tails.now code_width value_width query.now) }
{
    mptrie::exact_match(table, base, check, tails, code_width, value_width, query).into()
}

/// The keys that begin a query, in a dictionary of the plain form: their values and lengths.
#[unsafe(no_mangle)]
pub extern "C" fn groat_trie_common_prefix_search(
    table: &[u32],
    base: &[u32],
    check: &[u32],
    query: &[u32],
    values: &mut [u32],
    lengths: &mut [u32],
) -> GroatPlace
    ensures answer { result ≡ counted_as (answer_of (Trie.search_answer table.now base.now check.now query.now (min (length values.old) (length lengths.old)))) }
    ensures values_after { values.new ≡ values_after (Trie.search_answer table.now base.now check.now query.now (min (length values.old) (length lengths.old))) values.old }
    ensures lengths_after { lengths.new ≡ lengths_after (Trie.search_answer table.now base.now check.now query.now (min (length values.old) (length lengths.old))) lengths.old }
{
    trie::common_prefix_search(table, base, check, query, values, lengths).into()
}

/// How many elements a dictionary of the plain form has.
#[unsafe(no_mangle)]
pub extern "C" fn groat_trie_num_elems(table: &[u32], base: &[u32], check: &[u32]) -> GroatPlace
    ensures { result ≡ counted_as (counted (elems base.now check.now) (length table.now) 0 (elems base.now check.now)) }
{
    trie::num_elems(table, base, check).into()
}

/// How many of them are vacant.
#[unsafe(no_mangle)]
pub extern "C" fn groat_trie_num_vacants(table: &[u32], base: &[u32], check: &[u32]) -> GroatPlace
    ensures { result ≡ counted_as (counted (elems base.now check.now) (length table.now) 0 (vacants base.now check.now)) }
{
    trie::num_vacants(table, base, check).into()
}

/// How many bytes it takes when it is written.
#[unsafe(no_mangle)]
pub extern "C" fn groat_trie_io_bytes(table: &[u32], base: &[u32], check: &[u32]) -> GroatPlace
    ensures { result ≡ counted_as (counted (elems base.now check.now) (length table.now) 0 (Trie.bytes table.now base.now check.now)) }
{
    trie::io_bytes(table, base, check).into()
}

/// The keys that begin a query, in a dictionary of the minimal-prefix form: their values and lengths.
#[unsafe(no_mangle)]
pub extern "C" fn groat_mptrie_common_prefix_search(
    table: &[u32],
    base: &[u32],
    check: &[u32],
    tails: &[u8],
    code_width: u8,
    value_width: u8,
    query: &[u32],
    values: &mut [u32],
    lengths: &mut [u32],
) -> GroatPlace
    ensures answer { result ≡ counted_as (answer_of (MpTrie.search_answer table.now base.now check.now tails.now code_width value_width query.now (min (length values.old) (length lengths.old)))) }
    ensures values_after { values.new ≡ values_after (MpTrie.search_answer table.now base.now check.now tails.now code_width value_width query.now (min (length values.old) (length lengths.old))) values.old }
    ensures lengths_after { lengths.new ≡ lengths_after (MpTrie.search_answer table.now base.now check.now tails.now code_width value_width query.now (min (length values.old) (length lengths.old))) lengths.old }
{
    let found = mptrie::common_prefix_search(
        table,
        base,
        check,
        tails,
        code_width,
        value_width,
        query,
        values,
        lengths,
    );
    found.into()
}
