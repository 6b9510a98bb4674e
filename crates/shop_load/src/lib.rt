//! The command `load NUMBER SIZE`: a generated load, run in turns over a shop.
//!
//! `tebaldi` calls [`run_load`]. [`load_input`] is the input that it runs.
//!
//! ```text
//!   NUMBER ──draws──► SIZE transactions of 8 sessions ──in_turns, over the shop──► the summary
//! ```
//!
//! | Type | Leaf | Requests |
//! |---|---|---|
//! | `report` | `view`, locks | read stock, read orders |
//! | `new_order` | `sales`, pipeline | read and add to stock, write orders |
//! | `payment` | `sales`, pipeline | read and add to an account, read orders |
//! | `delivery` | `ship`, pipeline | read orders, read and add to an account |
//!
//! - The *shop* has the tables `stock`, `orders` and `acct`, with keys 1 to 16. Its root is a snapshot node; the locks node `upd`
//!   is above `sales` and `ship` (`specs/Shop.antt`).
//! - A *draw* is the upper bits of the next state of a linear congruential generator, which begins with NUMBER
//!   (`specs/Loads.antt`). Three draws choose the type and the two keys of a transaction.
//! - The *summary* has the counts of committed and aborted transactions and of requests, and the sum of each table.
//!
//! **What is proved.** The lines are those that the number draws ([`loaded_lines`]), and the setup is the shop, which is whole
//! ([`shop_setup`]). What is shown is the summary of running these lines in turns ([`run_load`], clause `shown`: `IsLoad`). The
//! history is serialized (`serialized`).
//!
//! **Not claimed**: that the load is like that of a shop, or anything of its time.
#![tactic(auto)]

mod lines;
mod load;
mod shop;
mod summary;

pub use lines::{MOST_SIZE, loaded_lines};
pub use load::{load_input, run_load};
pub use shop::shop_setup;
