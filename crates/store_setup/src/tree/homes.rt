//! The leaves of each type.

ghost use Rattle.std.specs.Prelude.{◌≡◌, ◌<◌, ◌≤◌, length, cond, Some, None, count_by, map, IfOk};
ghost use Rattle.std.specs.List.{All, list_any};
ghost use Rattle.store_setup.specs.tree.Answers.{Finds};
ghost use Rattle.store_setup.specs.tree.Grown.{node_numbers, row_of, rows_of};
ghost use Rattle.store_setup.specs.tree.Homes.{part_lists, part_paths, parts_of};
ghost use Rattle.teb_rules.specs.Accepted.{Homeless, is_homeless};
ghost use Rattle.teb_rules.specs.Setup.{among};
ghost use Rattle.teb_rules.specs.Tree.{below, houses, leaf, way};

use crate::tree::path::Path;
use crate::tree::shape::holds;
use crate::tree::way::{count_above, push_way};
use crate::tree::{NodeRow, ShapeWhy, TreeError};
use std::alloc::{AllocError, Global};
use teb_rules::names::{Kind, Node, Spot};

/// Tests whether each type below `types` is in at least as many nodes as it has parts, and in one at least.
///
/// # Errors
/// `Homeless` at node 0 if some type is not.
pub fn check_homes(rows: &[NodeRow], types: u8) -> Result<(), TreeError>
    requires { length rows.now ≤ 64 }
    ensures { Finds result (cond (list_any (is_homeless (rows_of rows.now)) (below types)) (Some (0, Homeless)) None) }
{
    for k in 0..types {
        if is_homeless(rows, Kind(k)) {
            return Err(TreeError::Shape {
                node: Node(0),
                why: ShapeWhy::Homeless,
            });
        }
    }
    Ok(())
}

fn is_homeless(rows: &[NodeRow], k: Kind) -> bool
    requires { length rows.now ≤ 64 }
    ensures { result ≡ is_homeless (rows_of rows.now) k.0 }
{
    match parts_of(rows, k) {
        Some(parts) => count_homes(rows, k) < parts,
        None => true,
    }
}

// Returns the number of parts of a type, by the first row that has it.
fn parts_of(rows: &[NodeRow], k: Kind) -> Option<u8>
    ensures { result ≡ parts_of k.0 (rows_of rows.now) }
{
    match rows {
        [row, ..] if holds(&row.types, k) => Some(row.of),
        [_, rest @ ..] => parts_of(rest, k),
        [] => None,
    }
}

fn count_homes(rows: &[NodeRow], k: Kind) -> u8
    requires { length rows.now ≤ 64 }
    ensures count { result ≡ count_by (λ r. among k.0 r.types) (rows_of rows.now) }
    ensures few { result ≤ length rows.now }
{
    match rows {
        [row, rest @ ..] => count_homes(rest, k) + u8::from(holds(&row.types, k)),
        [] => 0,
    }
}

/// Returns for each type below `types`, the paths to its leaves in order of their parts.
///
/// # Errors
/// `AllocError`: out of memory.
pub fn all_paths(alloc: Global, rows: &[NodeRow], types: u8) -> Result<Vec<Vec<Path>>, AllocError>
    requires few { length rows.now ≤ 64 }
    requires parts { All (λ r. 0 < r.of) rows.now }
    ensures { IfOk result (λ v. map part_lists v.items ≡ map (λ k. part_paths (rows_of rows.now) k) (below types)) }
{
    let mut paths = Vec::with_capacity(alloc, usize::from(types))?;
    for k in 0..types {
        paths.push(part_paths(alloc, rows, Kind(k))?)?;
    }
    Ok(paths)
}

// Returns the paths to the leaves of one type, in order of their parts.
fn part_paths(alloc: Global, rows: &[NodeRow], k: Kind) -> Result<Vec<Path>, AllocError>
    requires few { length rows.now ≤ 64 }
    requires parts { All (λ r. 0 < r.of) rows.now }
    ensures { IfOk result (λ v. part_lists v ≡ part_paths (rows_of rows.now) k.0) }
{
    let parts = parts_of(rows, k).unwrap_or(0);
    let mut paths = Vec::with_capacity(alloc, usize::from(parts))?;
    for part in 0..parts {
        let spot = Spot {
            kind: k,
            instance: u32::from(part),
        };
        paths.push(way_to(alloc, rows, leaf_of(rows, spot))?)?;
    }
    Ok(paths)
}

#[tactic(auto, unfolding(teb_rules::specs::Tree::way))]
fn way_to(alloc: Global, rows: &[NodeRow], n: Node) -> Result<Path, AllocError>
    requires { length rows.now ≤ 64 }
    ensures { IfOk result (λ p. node_numbers p ≡ way (rows_of rows.now) n.0) }
{
    let mut way = Vec::with_capacity(alloc, usize::from(count_above(rows, n, n.0)) + 1)?;
    push_way(rows, n, n.0, &mut way)?;
    Path::new(alloc, way, rows.len())
}

// Returns the first node that has the type of a spot and the part of its instance, or node 0 if none has.
fn leaf_of(rows: &[NodeRow], s: Spot) -> Node
    requires few { length rows.now ≤ 64 }
    requires parts { All (λ r. 0 < r.of) rows.now }
    ensures { result.0 ≡ leaf (rows_of rows.now) s }
{
    for n in 0..rows.len() as u8 {
        if houses(&rows[usize::from(n)], s) {
            return Node(n);
        }
    }
    Node(0)
}

fn houses(row: &NodeRow, s: Spot) -> bool
    requires { 0 < row.now.of }
    ensures { result ≡ houses (row_of row.now) s }
{
    holds(&row.types, s.kind) && s.instance % u32::from(row.of) == u32::from(row.part)
}
