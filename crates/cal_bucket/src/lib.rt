//! Buckets of the calendar: the month of a time, the start of a month, and the bucket of a time in days, weeks,
//! months or years.
#![tactic(auto)]

mod answers;
mod buckets;
mod cycles;
mod gathers;
pub mod laws;
mod months;
mod plans;
mod rows;
mod shapes;

pub use answers::cal_answer;
pub use buckets::calendar_bucket;
pub use months::{month_of, month_start};
pub use plans::{CalPlan, CalUnit};
