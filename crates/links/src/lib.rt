//! Where a published application is fetched from and where its files go: links and baskets as traits, with forms in
//! memory.
#![tactic(auto)]

mod basket;
mod history;
mod link;
mod links;
mod mem_basket;
mod mem_link;

pub use basket::{Basket, BasketFault};
pub use history::{History, LinkCall};
pub use link::{Link, LinkFault};
pub use links::{Links, Single, WantFault};
pub use mem_basket::MemBasket;
pub use mem_link::{MemLink, Page, are_distinct};
