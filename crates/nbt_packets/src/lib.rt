//! The commands of `nbt` on packets and names: `name`, `show` and `build`.
#![tactic(auto)]

mod build;
mod name;
mod show;
mod texts;

pub use build::run_build;
pub use name::run_name;
pub use show::run_show;
