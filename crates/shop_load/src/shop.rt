//! The shop, over whose store the generated load runs.

ghost use Rattle.std.specs.Prelude.{◌≡◌, ◌++◌, ◌∷◌, [], IfOk, OnOk};
ghost use Rattle.store_setup.specs.tree.Grown.{row_of, rows_of, parent_number, kind_numbers};
ghost use Rattle.store_setup.specs.SetupView.{setup_view};
ghost use Rattle.store_setup.specs.Sound.{IsWhole, IsNamed, HasNames};
ghost use Rattle.shop_load.specs.Shop.{shop as spec_shop, node as spec_node, filled};

use std::alloc::{AllocError, Global};
use store_setup::Setup;
use store_setup::profile::Profile;
use store_setup::tree::{NodeRow, Tree, TreeError};
use teb_rules::names::{Cell, ControlKind, Kind, NameBook, Names, Node, Rows, Table};

/// The pieces in stock, by key.
pub(crate) const STOCK: Table = Table(0);

/// The number of the last order, by key.
pub(crate) const ORDERS: Table = Table(1);

/// The balance of an account, by key.
pub(crate) const ACCOUNTS: Table = Table(2);

/// The keys of each table are 1 to this number.
pub(crate) const KEYS: u32 = 16;

/// How many transactions a batch of a node below the root admits.
const BATCH: u16 = 64;

/// Returns the setup of the shop.
///
/// # Errors
/// `AllocError`: out of memory.
pub fn shop_setup(alloc: Global) -> Result<Setup, AllocError>
    ensures setup { IfOk result (λ s. setup_view s ≡ spec_shop) }
    ensures whole { IfOk result (λ s. IsWhole (setup_view s)) }
    ensures named { IfOk result (λ s. IsNamed (setup_view s)) }
    ensures names { IfOk result (λ s. HasNames (setup_view s)) }
{
    Ok(Setup {
        names: names(alloc)?,
        profiles: profiles(alloc)?,
        tree: tree(alloc)?,
        rows: rows(alloc)?,
        format: 1,
    })
}

fn names(alloc: Global) -> Result<NameBook, AllocError>
    ensures tables { IfOk result (λ book. book.tables ≡ spec_shop.tables) }
    ensures types { IfOk result (λ book. book.types ≡ spec_shop.types) }
    ensures nodes { IfOk result (λ book. book.nodes ≡ spec_shop.nodes) }
{
    Ok(NameBook {
        tables: table_names(alloc)?,
        types: type_names(alloc)?,
        nodes: node_names(alloc)?,
    })
}

fn table_names(alloc: Global) -> Result<Names, AllocError>
    ensures { IfOk result (λ names. names ≡ spec_shop.tables) }
{
    let mut names = Names::new(alloc);
    names.add("stock")?;
    names.add("orders")?;
    names.add("acct")?;
    Ok(names)
}

fn type_names(alloc: Global) -> Result<Names, AllocError>
    ensures { IfOk result (λ names. names ≡ spec_shop.types) }
{
    let mut names = Names::new(alloc);
    names.add("report")?;
    names.add("new_order")?;
    names.add("payment")?;
    names.add("delivery")?;
    Ok(names)
}

fn node_names(alloc: Global) -> Result<Names, AllocError>
    ensures { IfOk result (λ names. names ≡ spec_shop.nodes) }
{
    let mut names = Names::new(alloc);
    names.add("root")?;
    names.add("view")?;
    names.add("upd")?;
    names.add("sales")?;
    names.add("ship")?;
    Ok(names)
}

fn profiles(alloc: Global) -> Result<Vec<Profile>, AllocError>
    ensures { IfOk result (λ v. v.items ≡ spec_shop.profiles) }
{
    let report = report(alloc)?;
    let new_order = two_steps(alloc, STOCK, ORDERS)?;
    let payment = two_steps(alloc, ACCOUNTS, ORDERS)?;
    let delivery = two_steps(alloc, ORDERS, ACCOUNTS)?;
    Ok(vec![in alloc; report, new_order, payment, delivery]?)
}

/// Returns the profile of a report: one step with all tables.
fn report(alloc: Global) -> Result<Profile, AllocError>
    ensures { IfOk result (λ p. p ≡ (0 ∷ 1 ∷ 2 ∷ []) ∷ []) }
{
    let step = vec![in alloc; STOCK, ORDERS, ACCOUNTS]?;
    match Profile::new(vec![in alloc; step]?) {
        Ok(profile) => Ok(profile),
        Err(_) => unreachable!(),
    }
}

fn two_steps(alloc: Global, first: Table, second: Table) -> Result<Profile, AllocError>
    ensures { IfOk result (λ p. p ≡ (first.0 ∷ []) ∷ (second.0 ∷ []) ∷ []) }
{
    let first = vec![in alloc; first]?;
    let second = vec![in alloc; second]?;
    match Profile::new(vec![in alloc; first, second]?) {
        Ok(profile) => Ok(profile),
        Err(_) => unreachable!(),
    }
}

fn tree(alloc: Global) -> Result<Tree, AllocError>
    ensures { IfOk result (λ t. t ≡ spec_shop.tree) }
{
    match Tree::build(alloc, nodes(alloc)?, 4) {
        Ok(tree) => Ok(tree),
        Err(TreeError::Shape { .. }) => unreachable!(),
        Err(TreeError::Misplaced { .. }) => unreachable!(),
        Err(TreeError::OutOfMemory) => Err(AllocError),
    }
}

fn nodes(alloc: Global) -> Result<Vec<NodeRow>, AllocError>
    ensures { IfOk result (λ v. rows_of v.items ≡ spec_shop.tree.rows) }
{
    let below_root = Some(Node(0));
    let below_updates = Some(Node(2));
    let root = node(alloc, ControlKind::Snapshot, None, &[], 16)?;
    let reports = node(alloc, ControlKind::Locks, below_root, &[Kind(0)], BATCH)?;
    let updates = node(alloc, ControlKind::Locks, below_root, &[], BATCH)?;
    let sales = node(
        alloc,
        ControlKind::Pipeline,
        below_updates,
        &[Kind(1), Kind(2)],
        BATCH,
    )?;
    let shipping = node(
        alloc,
        ControlKind::Pipeline,
        below_updates,
        &[Kind(3)],
        BATCH,
    )?;
    Ok(vec![in alloc; root, reports, updates, sales, shipping]?)
}

/// Returns a node that takes all instances of its types.
fn node(
    alloc: Global,
    control: ControlKind,
    parent: Option<Node>,
    types: &[Kind],
    batch: u16,
) -> Result<NodeRow, AllocError>
    ensures { IfOk result (λ r. row_of r ≡ spec_node control (parent_number parent) (kind_numbers types.now) batch) }
{
    Ok(NodeRow {
        control,
        parent,
        types: types.to_vec(alloc)?,
        batch,
        ordered: false,
        part: 0,
        of: 1,
    })
}

fn rows(alloc: Global) -> Result<Rows, AllocError>
    ensures { IfOk result (λ rows. rows ≡ spec_shop.rows) }
{
    let mut rows = Vec::new(alloc);
    fill(&mut rows, STOCK, 100)?;
    fill(&mut rows, ORDERS, 0)?;
    fill(&mut rows, ACCOUNTS, 1000)?;
    Ok(Rows::from_sorted(rows))
}

/// Adds a row with the value for each key from 1 to 16.
fn fill(rows: &mut Vec<(Cell, i64)>, table: Table, value: i64) -> Result<(), AllocError>
    ensures { OnOk result (rows.new.items ≡ rows.old.items ++ filled table.0 value 16) }
{
    for i in 0..KEYS {
        rows.push((Cell { table, key: i + 1 }, value))?;
    }
    Ok(())
}
