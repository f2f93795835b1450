// src/mptrie.rs of the crate: the queries of the minimal-prefix form.
#![tactic(auto)]

ghost use Rattle.std.specs.Prelude.{◌≡◌, ◌≤◌, length, min};
ghost use Rattle.std.specs.Result.{IsOkAnd};
ghost use Rattle.node.specs.Limits.{max_query};
ghost use Rattle.mapper.specs.Code.{find};
ghost use Rattle.walk.specs.Walk.{elems};
ghost use Rattle.walk.specs.Tail.{exact_mp, prefixes_mp};
ghost use Rattle.walk.specs.Query.{answer_of, values_after, lengths_after};
ghost use Rattle.mptrie.specs.MpTrie.{exact_answer, search_answer, match_at};

use node::{Refusal, Sizes};
use walk::{end_value, node_at, query_refusal, scan_tail, settle_tail, step};

/// The value of a key, if the dictionary has it.
pub fn exact_match(
    table: &[u32],
    base: &[u32],
    check: &[u32],
    tails: &[u8],
    code_width: u8,
    value_width: u8,
    query: &[u32],
) -> Result<Option<u32>, Refusal>
    ensures { result ≡ exact_answer table.now base.now check.now tails.now code_width value_width query.now }
{
    if let Some(refusal) = query_refusal(sizes(table, base, check, tails), query) {
        return Err(refusal);
    }
    walk_down(table, base, check, tails, code_width, value_width, query)
}

fn sizes(table: &[u32], base: &[u32], check: &[u32], tails: &[u8]) -> Sizes
    ensures elems { result.elems ≡ elems base.now check.now }
    ensures table { result.table ≡ length table.now }
    ensures tails { result.tails ≡ length tails.now }
{
    Sizes {
        elems: base.len().min(check.len()),
        table: table.len(),
        tails: tails.len(),
    }
}

// What the walk of a query finds: it stops at a leaf, and the rest of the query is held against the leaf's tail.
#[tactic(auto, using(crate::proofs::Stroll::at_root, crate::proofs::Stroll::outside, crate::proofs::Stroll::in_tail, crate::proofs::Stroll::stepped, crate::proofs::Stroll::missed, crate::proofs::Stroll::ended, crate::proofs::Stroll::ended_in_tail))]
fn walk_down(
    table: &[u32],
    base: &[u32],
    check: &[u32],
    tails: &[u8],
    code_width: u8,
    value_width: u8,
    query: &[u32],
) -> Result<Option<u32>, Refusal>
    ensures { result ≡ exact_mp (find table.now) base.now check.now tails.now code_width value_width (elems base.now check.now) query.now }
{
    let mut node_idx = 0;
    for (i, &c) in query.iter().enumerate() {
        let Some(node) = node_at(base, check, node_idx) else {
            return Err(Refusal::Outside);
        };
        if node.is_leaf() {
            return settle_tail(
                table,
                tails,
                code_width,
                value_width,
                node.get_base(),
                &query[i..],
            );
        }
        let Some(child_idx) = step(table, base, check, node_idx, c)? else {
            return Ok(None);
        };
        node_idx = child_idx;
    }
    let Some(node) = node_at(base, check, node_idx) else {
        return Err(Refusal::Outside);
    };
    if node.is_leaf() {
        return settle_tail(table, tails, code_width, value_width, node.get_base(), &[]);
    }
    end_value(base, check, node)
}

/// Writes the values and the lengths of the keys that begin a query, shortest first, and answers how many.
#[tactic(auto, using(walk::proofs::Short::short))]
pub fn common_prefix_search(
    table: &[u32],
    base: &[u32],
    check: &[u32],
    tails: &[u8],
    code_width: u8,
    value_width: u8,
    query: &[u32],
    values: &mut [u32],
    lengths: &mut [u32],
) -> Result<usize, Refusal>
    ensures answer { result ≡ answer_of (search_answer table.now base.now check.now tails.now code_width value_width query.now (min (length values.old) (length lengths.old))) }
    ensures values_after { values.new ≡ values_after (search_answer table.now base.now check.now tails.now code_width value_width query.now (min (length values.old) (length lengths.old))) values.old }
    ensures lengths_after { lengths.new ≡ lengths_after (search_answer table.now base.now check.now tails.now code_width value_width query.now (min (length values.old) (length lengths.old))) lengths.old }
{
    if let Some(refused) = query_refusal(sizes(table, base, check, tails), query) {
        return Err(refused);
    }
    let matches = count(table, base, check, tails, code_width, value_width, query)?;
    if values.len().min(lengths.len()) < matches {
        return Err(Refusal::MatchRoom);
    }
    // Most queries have none, and are not walked again.
    if 0 < matches {
        write(
            table,
            base,
            check,
            tails,
            code_width,
            value_width,
            query,
            values,
            lengths,
        );
    }
    Ok(matches)
}

// How many keys begin a query; cw and vw are the widths of a code and of a value. At a leaf the next step is a miss, so that its match is the last.
#[tactic(auto, using(crate::proofs::Prefixes::count_at_root, crate::proofs::Prefixes::count_matched, crate::proofs::Prefixes::count_passed, crate::proofs::Prefixes::count_missed, crate::proofs::Prefixes::count_ended))]
fn count(
    table: &[u32],
    base: &[u32],
    check: &[u32],
    tails: &[u8],
    cw: u8,
    vw: u8,
    query: &[u32],
) -> Result<usize, Refusal>
    ensures { result ≡ answer_of (prefixes_mp (find table.now) base.now check.now tails.now cw vw (elems base.now check.now) query.now) }
{
    let mut node_idx = 0;
    let mut n = 0;
    for (i, &c) in query.iter().enumerate() {
        let Some(child_idx) = step(table, base, check, node_idx, c)? else {
            return Ok(n);
        };
        let rest = &query[i + 1..];
        if match_at(table, base, check, tails, cw, vw, child_idx, rest)?.is_some() {
            n += 1;
        }
        node_idx = child_idx;
    }
    Ok(n)
}

// Writes the keys that begin a query: their values and their lengths.
fn write(
    table: &[u32],
    base: &[u32],
    check: &[u32],
    tails: &[u8],
    cw: u8,
    vw: u8,
    query: &[u32],
    values: &mut [u32],
    lengths: &mut [u32],
)
    requires short { length query.now ≤ max_query }
    requires fits { IsOkAnd (prefixes_mp (find table.now) base.now check.now tails.now cw vw (elems base.now check.now) query.now) (λ l. length l ≤ min (length values.old) (length lengths.old)) }
    ensures values_after { values.new ≡ values_after (prefixes_mp (find table.now) base.now check.now tails.now cw vw (elems base.now check.now) query.now) values.old }
    ensures lengths_after { lengths.new ≡ lengths_after (prefixes_mp (find table.now) base.now check.now tails.now cw vw (elems base.now check.now) query.now) lengths.old }
{
    let mut node_idx = 0;
    let mut n = 0;
    for (i, &c) in query.iter().enumerate() {
        let Ok(child) = step(table, base, check, node_idx, c) else {
            return;
        };
        let Some(child_idx) = child else {
            return;
        };
        let rest = &query[i + 1..];
        let Ok(found) = match_at(table, base, check, tails, cw, vw, child_idx, rest) else {
            return;
        };
        if let Some((value, taken)) = found {
            values[n] = value;
            lengths[n] = (i + 1 + taken) as u32;
            n += 1;
        }
        node_idx = child_idx;
    }
}

// The match at an element: its value, and how many characters of what is left of the query a leaf's tail takes.
#[tactic(auto, using(crate::proofs::Arrival::outside, crate::proofs::Arrival::in_tail, crate::proofs::Arrival::matched, crate::proofs::Arrival::none))]
fn match_at(
    table: &[u32],
    base: &[u32],
    check: &[u32],
    tails: &[u8],
    cw: u8,
    vw: u8,
    node_idx: u32,
    query: &[u32],
) -> Result<Option<(u32, usize)>, Refusal>
    ensures { result ≡ match_at (find table.now) base.now check.now tails.now cw vw node_idx query.now }
{
    let Some(node) = node_at(base, check, node_idx) else {
        return Err(Refusal::Outside);
    };
    if node.is_leaf() {
        let tail_pos = node.get_base();
        return scan_tail(table, tails, cw, vw, tail_pos, query);
    }
    let Some(value) = end_value(base, check, node)? else {
        return Ok(None);
    };
    Ok(Some((value, 0)))
}
