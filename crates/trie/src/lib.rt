// src/trie.rs of the crate: the queries of the plain form.
#![tactic(auto)]

ghost use Rattle.std.specs.Prelude.{◌≡◌, ◌≤◌, length, min};
ghost use Rattle.std.specs.Result.{IsOkAnd};
ghost use Rattle.node.specs.Limits.{max_query};
ghost use Rattle.mapper.specs.Code.{find};
ghost use Rattle.walk.specs.Walk.{elems, exact, prefixes, vacants};
ghost use Rattle.walk.specs.Query.{answer_of, values_after, lengths_after, counted};
ghost use Rattle.trie.specs.Trie.{exact_answer, search_answer, bytes};

use node::{Node, Refusal, Sizes};
use walk::{query_refusal, settle, step, vacants};

/// The value of a key, if the dictionary has it.
pub fn exact_match(
    table: &[u32],
    base: &[u32],
    check: &[u32],
    query: &[u32],
) -> Result<Option<u32>, Refusal>
    ensures { result ≡ exact_answer table.now base.now check.now query.now }
{
    if let Some(refusal) = query_refusal(sizes(table, base, check), query) {
        return Err(refusal);
    }
    walk_down(table, base, check, query)
}

fn sizes(table: &[u32], base: &[u32], check: &[u32]) -> Sizes
    ensures elems { result.elems ≡ elems base.now check.now }
    ensures table { result.table ≡ length table.now }
    ensures tails { result.tails ≡ 0 }
{
    Sizes {
        elems: base.len().min(check.len()),
        table: table.len(),
        tails: 0,
    }
}

// What the walk of a query finds.
#[tactic(auto, using(crate::proofs::Exact::at_root, crate::proofs::Exact::stepped, crate::proofs::Exact::missed, crate::proofs::Exact::left, crate::proofs::Exact::ended))]
fn walk_down(
    table: &[u32],
    base: &[u32],
    check: &[u32],
    query: &[u32],
) -> Result<Option<u32>, Refusal>
    ensures { result ≡ exact (find table.now) base.now check.now (elems base.now check.now) query.now }
{
    let mut node_idx = 0;
    for &c in query {
        let Some(child_idx) = step(table, base, check, node_idx, c)? else {
            return Ok(None);
        };
        node_idx = child_idx;
    }
    settle(base, check, node_idx)
}

/// Writes the values and the lengths of the keys that begin a query, shortest first, and answers how many.
#[tactic(auto, using(walk::proofs::Short::short))]
pub fn common_prefix_search(
    table: &[u32],
    base: &[u32],
    check: &[u32],
    query: &[u32],
    values: &mut [u32],
    lengths: &mut [u32],
) -> Result<usize, Refusal>
    ensures answer { result ≡ answer_of (search_answer table.now base.now check.now query.now (min (length values.old) (length lengths.old))) }
    ensures values_after { values.new ≡ values_after (search_answer table.now base.now check.now query.now (min (length values.old) (length lengths.old))) values.old }
    ensures lengths_after { lengths.new ≡ lengths_after (search_answer table.now base.now check.now query.now (min (length values.old) (length lengths.old))) lengths.old }
{
    if let Some(refused) = query_refusal(sizes(table, base, check), query) {
        return Err(refused);
    }
    let matches = count(table, base, check, query)?;
    if values.len().min(lengths.len()) < matches {
        return Err(Refusal::MatchRoom);
    }
    // Most queries have none, and are not walked again.
    if 0 < matches {
        write(table, base, check, query, values, lengths);
    }
    Ok(matches)
}

// How many keys begin a query.
#[tactic(auto, using(crate::proofs::Prefixes::count_at_root, crate::proofs::Prefixes::count_matched, crate::proofs::Prefixes::count_passed, crate::proofs::Prefixes::count_missed, crate::proofs::Prefixes::count_ended))]
fn count(table: &[u32], base: &[u32], check: &[u32], query: &[u32]) -> Result<usize, Refusal>
    ensures { result ≡ answer_of (prefixes (find table.now) base.now check.now (elems base.now check.now) query.now) }
{
    let mut node_idx = 0;
    let mut n = 0;
    for &c in query {
        let Some(child_idx) = step(table, base, check, node_idx, c)? else {
            return Ok(n);
        };
        if settle(base, check, child_idx)?.is_some() {
            n += 1;
        }
        node_idx = child_idx;
    }
    Ok(n)
}

// Writes the keys that begin a query: their values and their lengths.
fn write(
    table: &[u32],
    base: &[u32],
    check: &[u32],
    query: &[u32],
    values: &mut [u32],
    lengths: &mut [u32],
)
    requires short { length query.now ≤ max_query }
    requires fits { IsOkAnd (prefixes (find table.now) base.now check.now (elems base.now check.now) query.now) (λ l. length l ≤ min (length values.old) (length lengths.old)) }
    ensures values_after { values.new ≡ values_after (prefixes (find table.now) base.now check.now (elems base.now check.now) query.now) values.old }
    ensures lengths_after { lengths.new ≡ lengths_after (prefixes (find table.now) base.now check.now (elems base.now check.now) query.now) lengths.old }
{
    let mut node_idx = 0;
    let mut n = 0;
    for (i, &c) in query.iter().enumerate() {
        let Ok(child) = step(table, base, check, node_idx, c) else {
            return;
        };
        let Some(child_idx) = child else {
            return;
        };
        let Ok(found) = settle(base, check, child_idx) else {
            return;
        };
        if let Some(value) = found {
            values[n] = value;
            lengths[n] = (i + 1) as u32;
            n += 1;
        }
        node_idx = child_idx;
    }
}

/// How many elements there are.
pub fn num_elems(table: &[u32], base: &[u32], check: &[u32]) -> Result<usize, Refusal>
    ensures { result ≡ counted (elems base.now check.now) (length table.now) 0 (elems base.now check.now) }
{
    let sizes = sizes(table, base, check);
    if sizes.arrays_over() {
        return Err(Refusal::Limit);
    }
    Ok(sizes.elems)
}

/// How many elements are vacant.
pub fn num_vacants(table: &[u32], base: &[u32], check: &[u32]) -> Result<usize, Refusal>
    ensures { result ≡ counted (elems base.now check.now) (length table.now) 0 (vacants base.now check.now) }
{
    if sizes(table, base, check).arrays_over() {
        return Err(Refusal::Limit);
    }
    Ok(vacants(base, check))
}

/// How many bytes the dictionary takes when it is written.
#[tactic(auto, unfolding(node::specs::Limits::arrays_over))]
pub fn io_bytes(table: &[u32], base: &[u32], check: &[u32]) -> Result<usize, Refusal>
    ensures { result ≡ counted (elems base.now check.now) (length table.now) 0 (bytes table.now base.now check.now) }
{
    let sizes = sizes(table, base, check);
    if sizes.arrays_over() {
        return Err(Refusal::Limit);
    }
    Ok(4 * sizes.table + 8 + Node::io_bytes() * sizes.elems + 4)
}
