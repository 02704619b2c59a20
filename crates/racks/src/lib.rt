// Racks: the calls on a store of tables, the log of such calls, and what is guaranteed of every rack that has been kept.
#![tactic(auto)]

mod laws;
mod rack;
mod working;

pub use laws::guarantee;
pub use rack::Rack;
pub use working::Working;
