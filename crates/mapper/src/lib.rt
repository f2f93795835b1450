// src/mapper.rs of the crate: the code of a character.
#![tactic(auto)]

ghost use Rattle.std.specs.Prelude.{◌≡◌};
ghost use Rattle.mapper.specs.Code.{find};

use node::INVALID_CODE;

/// The code of a character in a table: its entry, unless it is past the table or its entry is `INVALID_CODE`.
#[tactic(auto, unfolding(crate::specs::Code::find, crate::specs::Code::code))]
pub fn code_of(table: &[u32], c: u32) -> Option<u32>
    ensures { result ≡ find table.now c }
{
    table
        .get(c as usize) // no `From`, and a `try_from` only adds an `unwrap`
        .copied()
        .filter(|&code| code != INVALID_CODE)
}
