//! Splitting a text into its tokens.

ghost use Rattle.std.specs.Prelude.{◌<◌, All, AllPairs, IfOk, IfSome, length};
ghost use Rattle.geo_lexer.specs.Tokens.{IsBefore, IsLexed, IsWithin};

use crate::gaps::next_place;
use crate::places::token_at;
use crate::token_types::{Lexed, TokenList};
use geo_base::NoMemory;
use std::alloc::Global;

/// The tokens of a text, up to its end or to the first place where none can stand. Space, tab,
/// carriage return and line feed separate tokens, and so does a comment, from `%` to the end of its
/// line.
pub fn tokens(alloc: Global, bytes: &[u8]) -> Result<Lexed, NoMemory>
    ensures lexed { IfOk result (λ lexed. IsLexed bytes.now lexed.tokens lexed.fault) }
    ensures within { IfOk result (λ lexed. All (IsWithin bytes.now) lexed.tokens) }
    ensures in_order { IfOk result (λ lexed. AllPairs IsBefore lexed.tokens) }
    ensures fault_within { IfOk result
        (λ lexed. IfSome lexed.fault (λ fault. fault.place < length bytes.now)) }
{
    let mut items = Vec::new(alloc);
    let mut end = 0;
    while let Some(start) = next_place(bytes, end) {
        match token_at(bytes, start) {
            Ok(token) => {
                items.push(token)?;
                end = token.end as usize;
            }
            Err(fault) => {
                return Ok(Lexed {
                    tokens: TokenList { items },
                    fault: Some(fault),
                });
            }
        }
    }
    Ok(Lexed {
        tokens: TokenList { items },
        fault: None,
    })
}
