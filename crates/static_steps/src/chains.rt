//! The longest chains of tables in which each reaches the next and is not reached back by it.

ghost use Rattle.std.specs.Prelude.{◌≡◌, ◌<◌, ◌≤◌, ℕ, suc, IfOk, length, map, slice_index};
ghost use Rattle.teb_rules.specs.Steps.{greatest};
ghost use Rattle.static_steps.specs.Squares.{is_ahead, ahead_in, longest_in};

use crate::table_set::{TableSet, has};
use std::alloc::{AllocError, Global};
use std::mem;

/// Returns for each table the length of the longest chain that ends in it. The rows say which table reaches which.
///
/// # Errors
/// `AllocError`: out of memory.
pub fn longest_chains(alloc: Global, rows: &[TableSet]) -> Result<Vec<u8>, AllocError>
    requires { length rows.now ≤ 64 }
    ensures { IfOk result (λ chains. (length chains.items ≡ length rows.now)
        × ((b : ℕ) → b < length rows.now → slice_index chains.items b ≡ longest_in rows.now (length rows.now) b)) }
{
    let mut chains = vec![in alloc; 0; rows.len()]?;
    let mut longer = vec![in alloc; 0; rows.len()]?;
    for _links in 0..rows.len() {
        lengthen(rows, &chains, &mut longer);
        mem::swap(&mut chains, &mut longer);
    }
    Ok(chains)
}

// Computes the longest chains of one more link.
fn lengthen(rows: &[TableSet], chains: &[u8], longer: &mut [u8])
    requires few { length rows.now ≤ 64 }
    requires chains { length chains.now ≡ length rows.now }
    requires longer { length longer.old ≡ length rows.now }
    requires short { (b : ℕ) → b < length rows.now → slice_index chains.now b < 64 }
    ensures { (b : ℕ) → b < length rows.now → slice_index longer.new b ≡ greatest (map (λ a. suc (slice_index chains.now a)) (ahead_in rows.now b)) }
{
    for (b, chain) in longer.iter_mut().enumerate() {
        *chain = longest_to(rows, chains, b as u8);
    }
}

// Returns the length of the longest chain to table b. `chains` has those to the tables before it.
fn longest_to(rows: &[TableSet], chains: &[u8], b: u8) -> u8
    requires few { length rows.now ≤ 64 }
    requires within { b < length rows.now }
    requires chains { length chains.now ≡ length rows.now }
    requires short { (a : ℕ) → a < length rows.now → slice_index chains.now a < 64 }
    ensures { result ≡ greatest (map (λ a. suc (slice_index chains.now a)) (ahead_in rows.now b)) }
{
    let mut longest = 0;
    for a in 0..rows.len() as u8 {
        if is_ahead(rows, a, b) {
            longest = longest.max(chains[usize::from(a)] + 1);
        }
    }
    longest
}

// Returns whether table a reaches b, and b does not reach a.
fn is_ahead(rows: &[TableSet], a: u8, b: u8) -> bool
    requires few { length rows.now ≤ 64 }
    requires first { a < length rows.now }
    requires second { b < length rows.now }
    ensures { result ≡ is_ahead rows.now b a }
{
    has(rows[usize::from(a)], b) && !has(rows[usize::from(b)], a)
}
