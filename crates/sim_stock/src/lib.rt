//! Stocks and prices: the food and metal of each player, what he may do with them, and a turn in which what he makes has
//! a price.
//!
//! It promises that an economy is the one that the bytes of a file spell, and that a deed moves goods as its kind says,
//! whichever handlers are stored; no deed adds to the sum of all stocks. It stands on `sim_base` for matches and their
//! entities, and on `sim_json` for the values of JSON.
//!
//! - `stocks`, `rate`: how much each player has, and what things cost and bring.
//! - `deed`: what a player does with his stocks, and when.
//! - `economy`: the records of an economy.
//! - `fault`, `amounts`, `deed_items`, `reading`: an economy from the bytes of its file.
//! - `tributes`, `barters`: the handlers of tributes and barters.
//! - `table`: the stored handlers.
//! - `due`, `dealing`: the deeds of a turn, and the income.
//! - `market`: what a match with an economy is played with.
//! - `price`, `buying`: what a command costs, and commands that are paid for or left out.
//! - `paid_turns`: a whole paid turn.
#![tactic(auto)]

mod amounts;
mod barters;
mod buying;
mod dealing;
mod deed;
mod deed_items;
mod due;
mod economy;
mod fault;
mod market;
mod paid_turns;
mod price;
mod rate;
mod reading;
mod stocks;
mod table;
mod tributes;

pub use barters::barter;
pub use deed::{DatedDeed, DatedDeeds, Deed};
pub use economy::Economy;
pub use fault::EconomyFault;
pub use market::Market;
pub use rate::{Rate, Rates};
pub use reading::economy_of;
pub use stocks::{FOOD, METAL, Stocks};
pub use table::{DeedFunction, DeedHandler, DeedTable};
pub use tributes::tribute;
