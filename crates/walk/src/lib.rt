// What both forms of trie share: an element, the step to a child, where a walk ends, and a query's refusals.
#![tactic(auto)]

ghost use Rattle.std.specs.Prelude.{◌≡◌, ◌<◌, ◌≤◌, ◌+◌, IsTrue, All, drop};
ghost use Rattle.mapper.specs.Code.{find};
ghost use Rattle.walk.specs.Walk.{elems, element, vacants, child, step, end_value, settle};
ghost use Rattle.walk.specs.Tail.{tail_at, tail_match, tail_value, tail_scan, tail_scan_at, one_of};
ghost use Rattle.walk.specs.Query.{offence, query_refusal};

use mapper::code_of;
use node::{END_CODE, Node, Refusal, Sizes, character_refusal};
use utils::unpack_u32;

/// An element, if it is inside both runs.
pub fn node_at(base: &[u32], check: &[u32], node_idx: u32) -> Option<Node>
    ensures { result ≡ element base.now check.now node_idx }
{
    let e = node_idx as usize; // no `From` goes from 32 bits to `usize`
    Some(Node {
        base: *base.get(e)?,
        check: *check.get(e)?,
    })
}

/// How many elements are vacant.
pub fn vacants(base: &[u32], check: &[u32]) -> usize
    ensures { result ≡ vacants base.now check.now }
{
    base.iter()
        .zip(check)
        .filter(|(b, c)| {
            Node {
                base: **b,
                check: **c,
            }
            .is_vacant()
        })
        .count()
}

/// The child of an element by a code: `get_child_idx` of both tries.
#[tactic(auto, unfolding(crate::specs::Walk::child, node::specs::Element::base_of, node::specs::Element::leaf, node::specs::Element::parent))]
pub fn get_child_idx(
    base: &[u32],
    check: &[u32],
    node_idx: u32,
    code: u32,
) -> Result<Option<u32>, Refusal>
    ensures { result ≡ child base.now check.now (elems base.now check.now) node_idx code }
{
    let node = node_at(base, check, node_idx).ok_or(Refusal::Outside)?;
    if node.is_leaf() {
        return Ok(None);
    }
    let child_idx = node.get_base() ^ code;
    let child = node_at(base, check, child_idx).ok_or(Refusal::Outside)?;
    if child.get_check() == node_idx {
        Ok(Some(child_idx))
    } else {
        Ok(None)
    }
}

/// The child of an element by a character.
pub fn step(
    table: &[u32],
    base: &[u32],
    check: &[u32],
    node_idx: u32,
    c: u32,
) -> Result<Option<u32>, Refusal>
    ensures { result ≡ step (find table.now) base.now check.now (elems base.now check.now) node_idx c }
{
    let Some(code) = code_of(table, c) else {
        return Ok(None);
    };
    get_child_idx(base, check, node_idx, code)
}

/// The value of the leaf by code 0 of an element, where the element says that there is one.
#[tactic(auto, unfolding(crate::specs::Walk::end_value, node::specs::Element::base_of))]
pub fn end_value(base: &[u32], check: &[u32], node: Node) -> Result<Option<u32>, Refusal>
    ensures { result ≡ end_value base.now (elems base.now check.now) node.base node.check }
{
    if !node.has_leaf() {
        return Ok(None);
    }
    let leaf = node_at(base, check, node.get_base() ^ END_CODE).ok_or(Refusal::Outside)?;
    Ok(Some(leaf.get_base()))
}

/// The value where a walk of the plain form ends: a leaf's, or that of the leaf by code 0.
#[tactic(auto, unfolding(crate::specs::Walk::settle, node::specs::Element::base_of, node::specs::Element::leaf))]
pub fn settle(base: &[u32], check: &[u32], node_idx: u32) -> Result<Option<u32>, Refusal>
    ensures { result ≡ settle base.now check.now (elems base.now check.now) node_idx }
{
    let node = node_at(base, check, node_idx).ok_or(Refusal::Outside)?;
    if node.is_leaf() {
        return Ok(Some(node.get_base()));
    }
    end_value(base, check, node)
}

/// The refusal of the first character of a query that is refused by itself. Most queries have only characters below D800, none of which is: that is seen for
/// many of them at once.
#[tactic(auto, using(crate::proofs::Offences::low, crate::proofs::Offences::passed, crate::proofs::Offences::met, crate::proofs::Offences::none_met))]
pub fn offence(query: &[u32]) -> Option<Refusal>
    ensures { result ≡ offence query.now }
{
    if all_low(query) {
        return None;
    }
    for &c in query {
        let refusal = character_refusal(c);
        if refusal.is_some() {
            return refusal;
        }
    }
    None
}

/// What a query is refused for before its walk: 12, then 11 or 2.
pub fn query_refusal(sizes: Sizes, query: &[u32]) -> Option<Refusal>
    ensures { result ≡ query_refusal sizes.elems sizes.table sizes.tails query.now }
{
    if sizes.query_over(query.len()) {
        return Some(Refusal::Limit);
    }
    offence(query)
}

/// The rest of a query against a leaf's tail, in the tail bytes from a place on: first a byte that says how many codes follow.
#[tactic(auto, unfolding(crate::specs::Tail::tail_at))]
pub fn settle_tail(
    table: &[u32],
    tails: &[u8],
    code_width: u8,
    value_width: u8,
    tail_pos: u32,
    query: &[u32],
) -> Result<Option<u32>, Refusal>
    ensures { result ≡ tail_at (find table.now) code_width value_width (drop tail_pos tails.now) query.now }
{
    let pos = tail_pos as usize; // no `From`, and a `try_from` only adds an `unwrap`
    if tails.len() <= pos {
        return Err(Refusal::Outside);
    }
    tail_match(
        table,
        &tails[pos + 1..],
        code_width,
        value_width,
        tails[pos],
        query,
    )
}

// The rest of a query against the codes that are left at the start of a tail, and the value behind them.
#[tactic(auto, using(crate::proofs::Tails::no_code_left, crate::proofs::Tails::unread, crate::proofs::Tails::ends, crate::proofs::Tails::unknown, crate::proofs::Tails::differs, crate::proofs::Tails::alike, crate::proofs::Tails::inside))]
fn tail_match(
    table: &[u32],
    tail: &[u8],
    code_width: u8,
    value_width: u8,
    left: u8,
    query: &[u32],
) -> Result<Option<u32>, Refusal>
    ensures { result ≡ tail_match (find table.now) code_width value_width tail.now left query.now }
{
    if left == 0 {
        return tail_value(tail, value_width, query);
    }
    let Some(code) = unpack_u32(tail, code_width) else {
        return Err(Refusal::Outside);
    };
    if query.is_empty() {
        return Ok(None);
    }
    let Some(x) = code_of(table, query[0]) else {
        return Ok(None);
    };
    if x != code {
        return Ok(None);
    }
    let w = usize::from(code_width);
    tail_match(
        table,
        &tail[w..],
        code_width,
        value_width,
        left - 1,
        &query[1..],
    )
}

// The value behind the codes of a tail, if the query ends there.
#[tactic(auto, unfolding(utils::specs::Packed::unpack_answer))]
fn tail_value(tail: &[u8], value_width: u8, query: &[u32]) -> Result<Option<u32>, Refusal>
    ensures { result ≡ tail_value value_width tail.now query.now }
{
    if !query.is_empty() {
        return Ok(None);
    }
    match unpack_u32(tail, value_width) {
        Some(value) => Ok(Some(value)),
        None => Err(Refusal::Outside),
    }
}

/// A leaf's tail against the start of what is left of a query: the value, and how many characters the tail takes, if it matches.
#[tactic(auto, unfolding(crate::specs::Tail::tail_scan_at))]
pub fn scan_tail(
    table: &[u32],
    tails: &[u8],
    code_width: u8,
    value_width: u8,
    tail_pos: u32,
    query: &[u32],
) -> Result<Option<(u32, usize)>, Refusal>
    ensures { result ≡ one_of (tail_scan_at (find table.now) code_width value_width (drop tail_pos tails.now) 0 query.now) }
{
    let start = tail_pos as usize; // no `From`, and a `try_from` only adds an `unwrap`
    if tails.len() <= start {
        return Err(Refusal::Outside);
    }
    scan_codes(
        table,
        &tails[start + 1..],
        code_width,
        value_width,
        tails[start],
        0,
        query,
    )
}

// The codes at the start of a tail, of which that many are left, against what is left of a query behind the characters that are taken.
#[tactic(auto, using(crate::proofs::Scans::no_code_left, crate::proofs::Scans::unread_value, crate::proofs::Scans::unread, crate::proofs::Scans::ends, crate::proofs::Scans::unknown, crate::proofs::Scans::differs, crate::proofs::Scans::alike, crate::proofs::Tails::inside))]
fn scan_codes(
    table: &[u32],
    tail: &[u8],
    code_width: u8,
    value_width: u8,
    left: u8,
    taken: u8,
    query: &[u32],
) -> Result<Option<(u32, usize)>, Refusal>
    requires { taken + left ≤ 255 }
    ensures { result ≡ one_of (tail_scan (find table.now) code_width value_width tail.now left taken query.now) }
{
    if left == 0 {
        let Some(value) = unpack_u32(tail, value_width) else {
            return Err(Refusal::Outside);
        };
        return Ok(Some((value, usize::from(taken))));
    }
    let Some(code) = unpack_u32(tail, code_width) else {
        return Err(Refusal::Outside);
    };
    if query.is_empty() {
        return Ok(None);
    }
    let Some(found) = code_of(table, query[0]) else {
        return Ok(None);
    };
    if found != code {
        return Ok(None);
    }
    let w = usize::from(code_width);
    scan_codes(
        table,
        &tail[w..],
        code_width,
        value_width,
        left - 1,
        taken + 1,
        &query[1..],
    )
}

// Are all characters below D800?
fn all_low(query: &[u32]) -> bool
    ensures { IsTrue result → All (λ c. c < 0xd800) query.now }
{
    match query.iter().copied().max() {
        Some(highest) => highest < 0xd800,
        None => true,
    }
}
